//! What the texts promise beyond single calls.

ghost use Rattle.std.specs.Prelude.{◌≡◌, ◌≤◌, ◌++◌, ℕ, Bool, IfSome, List, Option};
ghost use Rattle.gptp_setup.specs.Intervals.{IsMoment};
ghost use Rattle.gptp_commands.specs.declared.failure.Status.{Status};
ghost use Rattle.gptp_network.specs.Document.{DocumentState};
ghost use Rattle.gptp_commands.specs.declared.run.RunOptions.{RunOptions};
ghost use Rattle.gptp_commands.specs.declared.timeline.TimelineOrder.{TimelineOrder};
ghost use Rattle.gptp_commands.specs.Certified.{AsksAtRest, AsksTheSame, EndsAccepted};
ghost use Rattle.gptp_commands.specs.CheckText.{CheckText};
ghost use Rattle.gptp_commands.specs.Command.{IsPlain, IsRead};
ghost use Rattle.gptp_commands.specs.CompareText.{BeginsCompare, CompareText};
ghost use Rattle.gptp_commands.specs.Every.{HasText};
ghost use Rattle.gptp_commands.specs.FaultsText.{FaultsText};
ghost use Rattle.gptp_accuracy.specs.declared.options.AccuracyOptions.{AccuracyOptions};
ghost use Rattle.gptp_faults.specs.Times.{AreOptions};
ghost use Rattle.gptp_faults.specs.declared.options.FaultsOptions.{FaultsOptions};
ghost use Rattle.gptp_commands.specs.QuestionText.{QuestionText};
ghost use Rattle.gptp_commands.specs.declared.question.Question.TheVariants as questions;
ghost use Rattle.gptp_commands.specs.RunText.{BeginsRun, RunText};
ghost use Rattle.gptp_commands.specs.TimelineText.{TimelineText};
ghost use Rattle.gptp_commands.specs.WhereText.{WhereText};

/// An input has one text and one status at most. `compare_lines` finds them wherever memory and the
/// devices serve.
pub fn one_comparison()
    ensures { (input : List ℕ) (a b : List (List ℕ)) (s t : Status)
        → CompareText input a s → CompareText input b t → (a ≡ b) × (s ≡ t) }
{}

/// Whatever text an input has, the lines that `compare_lines` may have begun with are its first lines. So what stands
/// written where it stopped is a front of that text.
pub fn a_comparison_begins_so()
    ensures { (input : List ℕ) (begun output : List (List ℕ)) (status : Status)
        → BeginsCompare input begun → CompareText input output status
        → (rest : List (List ℕ)) × (output ≡ begun ++ rest) }
{}

/// A document and a certificate have one text and one status at most, for the network at the time that is asked for.
/// [`check`](crate::check::check) finds them wherever memory and the devices serve.
pub fn one_check()
    ensures { (until : Option ℕ) (certificate document : List ℕ) (a b : List (List ℕ)) (s t : Status)
        → CheckText until certificate document a s → CheckText until certificate document b t → (a ≡ b) × (s ≡ t) }
{}

/// A document and a certificate have one text with the place at which the certificate first fails, and one status, at
/// most, for the network at the time that is asked for. [`check_where`](crate::check::check_where) finds them wherever
/// memory and the devices serve.
pub fn one_place()
    ensures { (until : Option ℕ) (certificate document : List ℕ) (a b : List (List ℕ)) (s t : Status)
        → WhereText until certificate document a s → WhereText until certificate document b t → (a ≡ b) × (s ≡ t) }
{}

/// A document and the options of its run have one text and one status at most. [`run`](crate::run::run) finds them
/// wherever memory and the devices serve.
pub fn one_run()
    ensures { (options : RunOptions) (input : List ℕ) (a b : List (List ℕ)) (s t : Status)
        → RunText options input a s → RunText options input b t → (a ≡ b) × (s ≡ t) }
{}

/// A document and what is asked of its timeline have one text and one status at most.
/// [`timeline`](crate::timeline::timeline) finds them wherever memory and the devices serve.
pub fn one_timeline()
    ensures { (order : TimelineOrder) (input : List ℕ) (a b : List (List ℕ)) (s t : Status)
        → TimelineText order input a s → TimelineText order input b t → (a ≡ b) × (s ≡ t) }
{}

/// Whatever text a document and options have, the lines that `run` may have begun with are its first lines. So what
/// stands written where it stopped is a front of that text.
pub fn a_run_begins_so()
    ensures { (options : RunOptions) (input : List ℕ) (begun output : List (List ℕ)) (status : Status)
        → BeginsRun options input begun → RunText options input output status
        → (rest : List (List ℕ)) × (output ≡ begun ++ rest) }
{}

/// A document has one text of its choice at a time, and one status, at most.
/// [`answer_question`](crate::question::answer_question) finds them wherever memory and the devices serve.
pub fn one_choice()
    ensures { (until : Option ℕ) (input : List ℕ) (a b : List (List ℕ)) (s t : Status)
        → QuestionText (questions.Choice until) input a s → QuestionText (questions.Choice until) input b t
        → (a ≡ b) × (s ≡ t) }
{}

/// A document has one text of its accuracy at a time, and one status, at most.
/// [`answer_question`](crate::question::answer_question) finds them wherever memory and the devices serve.
pub fn one_accuracy()
    ensures { (until : Option ℕ) (options : AccuracyOptions) (input : List ℕ) (a b : List (List ℕ)) (s t : Status)
        → QuestionText (questions.Accuracy until options) input a s
        → QuestionText (questions.Accuracy until options) input b t → (a ≡ b) × (s ≡ t) }
{}

/// A document has one text of what is explained of a clock at a time, and one status, at most.
/// [`answer_question`](crate::question::answer_question) finds them wherever memory and the devices serve.
pub fn one_explanation()
    ensures { (clock : ℕ) (until : Option ℕ) (input : List ℕ) (a b : List (List ℕ)) (s t : Status)
        → QuestionText (questions.Explain clock until) input a s
        → QuestionText (questions.Explain clock until) input b t → (a ≡ b) × (s ≡ t) }
{}

/// A document and what is asked of its faults have one text and one status at most. [`faults`](crate::faults::faults)
/// finds them wherever memory and the devices serve.
pub fn one_faults()
    ensures { (options : FaultsOptions) (input : List ℕ) (a b : List (List ℕ)) (s t : Status)
        → FaultsText options input a s → FaultsText options input b t → (a ≡ b) × (s ≡ t) }
{}

/// Every document and certificate have a text of `check`, at each time.
pub fn every_input_has_a_check()
    ensures { (until : Option ℕ) (certificate document : List ℕ) → HasText (CheckText until certificate) document }
{}

/// Every document and certificate have a text of `check --where`, at each time.
pub fn every_input_has_a_place()
    ensures { (until : Option ℕ) (certificate document : List ℕ) → HasText (WhereText until certificate) document }
{}

/// Every input has a text of its choice, at each time.
pub fn every_input_has_a_choice()
    ensures { (until : Option ℕ) (input : List ℕ) → HasText (QuestionText (questions.Choice until)) input }
{}

/// Every input has a text of its accuracy, at each time and with all options.
pub fn every_input_has_an_accuracy()
    ensures { (until : Option ℕ) (options : AccuracyOptions) (input : List ℕ)
        → HasText (QuestionText (questions.Accuracy until options)) input }
{}

/// Every input has a text of what is explained of each clock, at each time.
pub fn every_input_has_an_explanation()
    ensures { (clock : ℕ) (until : Option ℕ) (input : List ℕ)
        → HasText (QuestionText (questions.Explain clock until)) input }
{}

/// Every input has a text of `compare`.
pub fn every_input_has_a_comparison()
    ensures { (input : List ℕ) → HasText CompareText input }
{}

/// Every input has a text of what is found in it, strict or not.
pub fn every_input_has_findings()
    ensures { (strict : Bool) (input : List ℕ) → HasText (QuestionText (questions.Lint strict)) input }
{}

/// Every input has a text of its run, with each seed, where its end is asked for at no later than `LAST_MOMENT`.
pub fn every_input_has_a_run()
    ensures { (options : RunOptions) (input : List ℕ)
        → IfSome options.until (λ until. IsMoment until) → HasText (RunText options) input }
{}

/// Every input has a text of its timeline, with each seed, where its end is asked for at no later than `LAST_MOMENT`.
pub fn every_input_has_a_timeline()
    ensures { (order : TimelineOrder) (input : List ℕ)
        → IfSome order.until (λ until. IsMoment until) → HasText (TimelineText order) input }
{}

/// Every input has a text of its faults, with all that may be asked of them, where a fault stays for 1 ns at least.
pub fn every_input_has_faults()
    ensures { (options : FaultsOptions) (input : List ℕ) → AreOptions options
        → IfSome options.hold (λ hold. 1 ≤ hold) → HasText (FaultsText options) input }
{}

/// What `run` certifies of a document that is at rest at its end, [`check`](crate::check::check) accepts of that
/// document, and `choice` writes: at that time, and at each before and after which the same events lie. So a right
/// certificate is one that is read.
pub fn what_a_run_certifies_is_accepted()
    ensures { (options : RunOptions) (input : List ℕ) (d : DocumentState) (at : Option ℕ)
        → AsksAtRest options input d → AsksTheSame at options d
        → (output : List (List ℕ)) (status : Status) → RunText options input output status
        → EndsAccepted at input output }
{}

/// A command by its name with nothing that may be left out is a command line that is read: `compare`, `run`,
/// `timeline`, `faults`, `choice`, `accuracy` and `lint` alone, `check` with a file, and `explain` with a clock.
pub fn a_plain_command_line_is_taken()
    ensures { (words : List (List ℕ)) → IsPlain words → IsRead words }
{}
