//! The top call of the program.

ghost use Rattle.std.specs.Prelude.{◌≡◌, ◌≢◌, ◌⊎◌, ◌≤◌, ◌+◌, ◌↔◌, ℕ, [], ◌∷◌, codes, IfSome, IfNone, IfOk, IfErr, IsSome, IsNone, Some, true, false, option_map, length};
ghost use Rattle.std.specs.Io.KnownBytes.{Appends, IsAtEnd};
ghost use Rattle.ct_io.specs.Faults.{Rose};
ghost use Rattle.ct_io.specs.Told.{AppendsProperPrefix, WhereTold, IsAboveLimit, IsWithinLimit};
ghost use Rattle.ct_io.specs.declared.TheConstants.{MAX_INPUT, MAX_READ};
ghost use Rattle.ct_run.specs.Mode.{reads, input_for, status_of, IsRunStatus, WritesOutput, WritesPrefix, WritesProperPrefix, LeftByMemory, LeftByReadFault, LeftByTooLong};
ghost use Rattle.ct_command_line.specs.CommandLine.{mode_of, bytes_of};
ghost use Rattle.ct_session.specs.Truth.{IsTrueAnswer, AreAnswers};
ghost use Rattle.ct_session.specs.TrueLines.{IsTrueReason};
ghost use Rattle.ct_verify.specs.Verification.{IsTrueVerdict};
ghost use Rattle.ct_find.specs.Truth.{AreTrueReplies};
ghost use Rattle.ct_sample.specs.Truth.{AreTrueSums};
ghost use Rattle.ct_run.specs.Truth.{WritesAs};
ghost use Rattle.ct_run.specs.Exit.{fault_status, result_status, summary_status};
ghost use Rattle.ct_run.specs.Program.{usage_line, WritesUsage};
ghost use Rattle.ct_run.specs.Inside.Ran.{Ran};

use crate::serving::serve_session;
use crate::status::Status;
use ct_command_line::{Mode, named_mode};
use ct_find::find_source;
use ct_io::{RunFault, Sink, Source, write_all};
use ct_sample::write_sample;
use ct_verify::verify_source;
use std::alloc::Global;

/// What is written where the words are no command.
const USAGE: &[u8] = b"usage: code_tables session | verify | find | sample --number N\n";

/// The status of an output that was written whole.
fn status_of(refused: bool) -> Status
    ensures { result ≡ status_of refused }
{
    if refused {
        Status::Refused
    } else {
        Status::Done
    }
}

/// The status of a run that is broken off.
fn fault_status(fault: RunFault) -> Status
    ensures { result ≡ fault_status fault }
{
    match fault {
        RunFault::Read => Status::ReadFault,
        RunFault::Write => Status::WriteFault,
        RunFault::TooLong => Status::TooLong,
        RunFault::Memory => Status::Memory,
    }
}

/// The status of a mode, which tells whether something is refused in its output, or why it is broken off.
fn result_status(result_of: Result<bool, RunFault>) -> Status
    ensures { result ≡ result_status result_of }
{
    match result_of {
        Ok(refused) => status_of(refused),
        Err(fault) => fault_status(fault),
    }
}

/// The status of a mode in which nothing is refused, or why it is broken off.
fn summary_status(result_of: Result<(), RunFault>) -> Status
    ensures { result ≡ summary_status result_of }
{
    match result_of {
        Ok(()) => status_of(false),
        Err(fault) => fault_status(fault),
    }
}

/// Writes the usage line.
fn write_usage<K: Sink>(sink: &mut K) -> Status
    ensures written { WritesUsage result (K.holds sink.old) (K.holds sink.new) }
    ensures failed { result ≡ Status.WriteFault → Rose (K.faults sink.old) (K.faults sink.new) }
{
    match write_all(sink, USAGE) {
        Ok(()) => Status::Usage,
        Err(_) => Status::WriteFault,
    }
}

/// Runs the mode: it reads the source, if it has an input, and writes its output to the sink.
fn run_mode<S: Source, K: Sink>(alloc: Global, mode: Mode, source: &mut S, sink: &mut K) -> Status
    ensures ran { Ran (Some mode) result (S.left source.old) (S.left source.new) (K.holds sink.old) (K.holds sink.new)
        (S.faults source.old) (S.faults source.new) (K.faults sink.old) (K.faults sink.new) }
    ensures unread { reads mode ≡ false → source.new ≡ source.old }
{
    match mode {
        Mode::Session => result_status(serve_session(alloc, source, sink)),
        Mode::Verify => result_status(verify_source(alloc, source, sink)),
        Mode::Find => result_status(find_source(alloc, source, sink)),
        Mode::Sample(number) => summary_status(write_sample(alloc, number, sink)),
    }
}

/// Runs the mode that the words name, or writes the usage line.
fn run_words<S: Source, K: Sink>(
    alloc: Global,
    words: &[String],
    source: &mut S,
    sink: &mut K,
) -> Status
    ensures ran { Ran (mode_of (bytes_of words.now)) result (S.left source.old) (S.left source.new) (K.holds sink.old) (K.holds sink.new)
        (S.faults source.old) (S.faults source.new) (K.faults sink.old) (K.faults sink.new) }
    ensures unread { option_map reads (mode_of (bytes_of words.now)) ≢ Some true → source.new ≡ source.old }
{
    match named_mode(alloc, words) {
        Ok(Some(mode)) => run_mode(alloc, mode, source, sink),
        Ok(None) => write_usage(sink),
        Err(_) => Status::Memory,
    }
}

/// Runs the program on the words after its name, as `clap` reads them. Where they name a mode, it reads the source, if the mode has an input, and writes the
/// mode's output to the sink. Other words are answered by the usage line, and nothing is read.
pub fn run<S: Source, K: Sink>(
    alloc: Global,
    words: &[String],
    source: &mut S,
    sink: &mut K,
) -> Status
    // Done and Refused: what was written is an output of the mode, and a mode that reads the source read it to its end.
    ensures run { IfSome (mode_of (bytes_of words.now)) (λ mode. IsRunStatus result
        → WritesOutput mode (S.left source.old) (K.holds sink.old) (K.holds sink.new) result) }
    ensures to_end { option_map reads (mode_of (bytes_of words.now)) ≡ Some true → IsRunStatus result → IsAtEnd (S.left source.new) }
    ensures command { IsRunStatus result → IsSome (mode_of (bytes_of words.now)) }

    // What it says of codes is true: of a session the bounds and the codes in its replies, and the lines of its explanations; the claims of a document
    // that is verified; the bounds of duals that are found; the sums of a sample.
    ensures true_bounds { bytes_of words.now ≡ codes "session" ∷ [] → IsRunStatus result
        → WritesAs (AreAnswers IsTrueAnswer) (S.left source.old) (K.holds sink.old) (K.holds sink.new) }
    ensures true_lines { mode_of (bytes_of words.now) ≡ Some Mode.Session → IsRunStatus result
        → WritesAs (AreAnswers IsTrueReason) (S.left source.old) (K.holds sink.old) (K.holds sink.new) }
    ensures true_claims { mode_of (bytes_of words.now) ≡ Some Mode.Verify → IsRunStatus result
        → WritesAs IsTrueVerdict (S.left source.old) (K.holds sink.old) (K.holds sink.new) }
    ensures true_duals { mode_of (bytes_of words.now) ≡ Some Mode.Find → IsRunStatus result
        → WritesAs AreTrueReplies (S.left source.old) (K.holds sink.old) (K.holds sink.new) }
    ensures true_sums { (number : ℕ) → mode_of (bytes_of words.now) ≡ Some (Mode.Sample number) → IsRunStatus result
        → WritesAs (λ input output. AreTrueSums output) (Some []) (K.holds sink.old) (K.holds sink.new) }

    // Whatever the status, what was written is a prefix of an output; each fault says how much of it.
    ensures prefix { IfSome (mode_of (bytes_of words.now)) (λ mode.
        WritesPrefix mode (S.left source.old) (K.holds sink.old) (K.holds sink.new)) }
    ensures written_in_part { IfSome (mode_of (bytes_of words.now)) (λ mode. result ≡ Status.WriteFault
        → WritesProperPrefix mode (S.left source.old) (K.holds sink.old) (K.holds sink.new)) }
    ensures after_read_fault { IfSome (mode_of (bytes_of words.now)) (λ mode. result ≡ Status.ReadFault
        → LeftByReadFault mode (S.left source.old) (S.left source.new) (K.holds sink.old) (K.holds sink.new)) }
    ensures after_too_long { IfSome (mode_of (bytes_of words.now)) (λ mode. result ≡ Status.TooLong
        → LeftByTooLong mode (S.left source.old) (S.left source.new) (K.holds sink.old) (K.holds sink.new)) }
    ensures after_memory { IfSome (mode_of (bytes_of words.now)) (λ mode. result ≡ Status.Memory
        → LeftByMemory mode (S.left source.old) (S.left source.new) (K.holds sink.old) (K.holds sink.new)) }

    // When each fault comes.
    ensures read_fault { result ≡ Status.ReadFault
        → Rose (S.faults source.old) (S.faults source.new) }
    ensures write_fault { result ≡ Status.WriteFault
        → Rose (K.faults sink.old) (K.faults sink.new) }
    ensures too_long { WhereTold (S.left source.old) (S.left source.new)
        (λ before after. (result ≡ Status.TooLong) ↔ IsAboveLimit before after) }
    ensures one_read_past { WhereTold (S.left source.old) (S.left source.new)
        (λ before after. length before ≤ length after + MAX_INPUT + MAX_READ) }

    // Words that are no command.
    ensures no_command { IfNone (mode_of (bytes_of words.now)) (WritesUsage result (K.holds sink.old) (K.holds sink.new)) }
    ensures usage_only_then { result ≡ Status.Usage → IsNone (mode_of (bytes_of words.now)) }

    // Unless the words name a mode that reads, nothing is read.
    ensures unread { option_map reads (mode_of (bytes_of words.now)) ≢ Some true → source.new ≡ source.old }

    // Completeness: within the limit and without faults, a run ends so, but for want of memory.
    ensures complete { IfSome (mode_of (bytes_of words.now)) (λ mode. IsWithinLimit (input_for mode (S.left source.old))
        → ¬ Rose (S.faults source.old) (S.faults source.new)
        → ¬ Rose (K.faults sink.old) (K.faults sink.new)
        → IsRunStatus result ⊎ (result ≡ Status.Memory)) }
{
    run_words(alloc, words, source, sink)
}
