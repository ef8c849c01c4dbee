//! Laws that what follows from the same is the same, and that there is what follows.

ghost use Rattle.std.specs.Prelude.{List};
ghost use Rattle.gptp_model.specs.World.{WorldState};
ghost use Rattle.gptp_certificate.specs.Stated.{States};
ghost use Rattle.gptp_graph.specs.Labelling.{SystemLine};
ghost use Rattle.gptp_invariants.specs.WorldSettlingInvariant.{SettlingInvariant};
ghost use Rattle.gptp_determinism.specs.ActLaws.{ActsKeepNames, ActsOnce, ActsOnceDrawn, InitialIsNamed, SoundIsNamed};
ghost use Rattle.gptp_determinism.specs.ContinuesLaws.{StartsBesideTime, StepsBesideTime, TimersBesideTime};
ghost use Rattle.gptp_determinism.specs.CourseLaws.{AdvancesOnce, BeginsOnce, NextOnce, StopsOnTheWay};
ghost use Rattle.gptp_determinism.specs.ExistenceLaws.{ActsExist, BeginningsExist, DocumentsLead, DocumentsUnfold, FramesAreJudged, StepsExist, WaysExist};
ghost use Rattle.gptp_determinism.specs.RunLaws.{LeadsOnce, MeantIsNamed, PlayedIsNamed, PlaysOnce, ReportsOnce, StatesOnce};
ghost use Rattle.gptp_determinism.specs.SoFar.{LeadsBeginSo};
ghost use Rattle.gptp_determinism.specs.StepLaws.{StepsOnce};
ghost use Rattle.gptp_determinism.specs.ActTraceLaws.{CoursesAreNamed, CoursesOnce};
ghost use Rattle.gptp_determinism.specs.WorldsBesideLaws.{ActsBesideTime, BeginsBesideTime, CoursesBesideTime, NextBesideTime, ReadyBesideTime};

use gptp_links::Fate;

/// What a step makes of a system, what is sent in it, and what is answered to a frame follow from the state of the
/// system, the time and the input.
pub fn steps_have_one_outcome()
    ensures { StepsOnce }
{}

/// Whether a system goes on with the time that it read (`continues`) touches time alone. Two systems that start with
/// setups that differ in it are the same but for the time that they read and tell, and a step with one input leaves
/// them so: they send and answer the same but for the origin and the correction of Follow_Ups, and their timers run out
/// at the same times. That is for steps in which the numbers on the way of time fit in both systems or in neither.
pub fn continues_touches_time_alone()
    ensures starts { StartsBesideTime }
    ensures steps { StepsBesideTime }
    ensures timers { TimersBesideTime }
{}

/// So it is with worlds. Those of two networks whose systems differ in `continues` begin the same but for the time that
/// systems read and tell; the same acts are ready and next in both, and each leaves them so, with the same draws of a
/// fate that answers in one way, and the same answers. So they take the same way with the same events, as long as the
/// numbers on the way of time fit in both worlds or in neither.
pub fn continues_leaves_worlds_alike<F: Fate>()
    ensures begins { BeginsBesideTime F.answers }
    ensures ready { ReadyBesideTime }
    ensures next { NextBesideTime }
    ensures acts { ActsBesideTime F.answers }
    ensures courses { CoursesBesideTime F.answers }
{}

/// In a sound world whose links join two ports each, a clock names one system, and a port one end of one link. So it is
/// in the world that a network makes, and after every act.
pub fn names_mean_one_thing()
    ensures sound { SoundIsNamed }
    ensures initial { InitialIsNamed }
    ensures acts { ActsKeepNames }
{}

/// What an act draws, what is told of it, and the world afterwards follow from the world before and the state of a fate
/// that answers in one way; the last two also from the world and the draws.
pub fn acts_have_one_outcome<F: Fate>()
    ensures fate { ActsOnce F.answers }
    ensures draws { ActsOnceDrawn }
{}

/// At most one act is next in a world.
pub fn one_act_is_next()
    ensures { NextOnce }
{}

/// How the world of a network begins, and how a world goes on to a time, follow from the network or the world, and from
/// the state of a fate that answers in one way. A world that stopped earlier is on its way there.
pub fn worlds_go_on_in_one_way<F: Fate>()
    ensures begins { BeginsOnce F.answers }
    ensures advances { AdvancesOnce F.answers }
    ensures stops { StopsOnTheWay F.answers }
{}

/// What happens in a world with events up to a time, act by act with the worlds between, follows from the world, the
/// events, and the state of a fate that answers in one way; and names go on to mean one thing.
pub fn worlds_unfold_in_one_way<F: Fate>()
    ensures courses { CoursesOnce F.answers }
    ensures named { CoursesAreNamed F.answers }
{}

/// In the world that the network of a document makes names mean one thing, and so they do in the world that the
/// document leads to by a time.
pub fn documents_name_one_thing<F: Fate>()
    ensures meant { MeantIsNamed }
    ensures played { PlayedIsNamed F.answers }
{}

/// That world, what is told meanwhile, and the lines of the frames follow from the document, the time, and the state of
/// a fate that answers in one way.
pub fn documents_have_one_outcome<F: Fate>()
    ensures plays { PlaysOnce F.answers }
    ensures leads { LeadsOnce F.answers }
{}

/// The report follows from the document, the time and the world, and what the systems of a world state from the world.
pub fn worlds_are_told_in_one_way()
    ensures report { ReportsOnce }
    ensures states { StatesOnce }
{}

/// The lines of the frames of a document that stopped before its end are the first of all that it leads to.
pub fn documents_begin_in_one_way<F: Fate>()
    ensures { LeadsBeginSo F.answers }
{}

/// Every list of octets reads as a message, or is refused.
pub fn every_frame_is_judged()
    ensures { FramesAreJudged }
{}

/// A system that is given an input in time takes a step, and is a system then.
pub fn every_step_exists()
    ensures { StepsExist }
{}

/// The world of a network begins, and an act that is ready is done, whatever the fate that answers all that it is
/// asked: there are draws and a world then, and the world can go on.
pub fn acts_exist<F: Fate>()
    ensures begins { BeginningsExist F.answers }
    ensures acts { ActsExist F.answers }
{}

/// A world that can go on goes on to each time that is ahead, and can go on then.
pub fn worlds_go_on<F: Fate>()
    ensures { WaysExist F.answers }
{}

/// A document that is playable is played to each time, whatever its fate, and has the lines of its frames and a report.
pub fn documents_unfold<F: Fate>()
    ensures unfold { DocumentsUnfold F.answers }
    ensures lead { DocumentsLead F.answers }
{}

/// In a world that keeps what every world of a network keeps, what the live systems state of themselves has the lines
/// of a certificate.
pub fn worlds_are_stated()
    ensures { (w : WorldState) → SettlingInvariant w → (lines : List SystemLine) × States w lines }
{}
