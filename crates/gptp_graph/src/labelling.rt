//! Laws on the tests of a certificate.

ghost use Rattle.gptp_graph.specs.LabellingLaws.{LocalTestsDecide, OneLabellingPasses, PassesWhereNear};

/// The lines of a certificate pass all local tests exactly where they are the settled choice, whatever the distances:
/// a system 255 or more steps from its best has a far line.
pub fn local_tests_decide()
    ensures { LocalTestsDecide }
{}

/// Of all certificates with their lines by rising clock one passes at most.
pub fn one_labelling_passes()
    ensures { OneLabellingPasses }
{}

/// A network has a certificate that passes with all steps below 255 exactly where each of its systems is fewer than
/// 255 steps from its best.
pub fn near_networks_pass()
    ensures { PassesWhereNear }
{}
