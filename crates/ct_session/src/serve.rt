//! The loop that serves a session.

ghost use Rattle.std.specs.Prelude.{◌≡◌, ◌≤◌, ◌<◌, ◌++◌, ℕ, true, Option, List, IfErr, OnOk, [], length};
ghost use Rattle.ct_io.specs.Buffered.{buffered, IsPut};
ghost use Rattle.ct_io.specs.Reader.{Reader};
ghost use Rattle.ct_replies.specs.LongReply.{owed_text};
ghost use Rattle.ct_session.specs.Ending.{Ends};
ghost use Rattle.ct_session.specs.Inside.Serving.{Devices, devices, EndsAt, PassesOver, Serves, StepsTo};
ghost use Rattle.ct_session.specs.Inside.Writing.{AnswersLine, BreaksOff, BreaksOffAt, IsOneReply, IsReady};

use crate::answers::Answers;
use crate::session::Session;
use ct_io::{Failed, LineReader, RunFault, Sink, SinkBuffer, Source};
use ct_replies::LongReply;
use std::alloc::Global;

/// Writes the replies that are gathered where the reader is about to read.
fn make_ready<K: Sink>(
    reader: &mut LineReader,
    sink: &mut K,
    buffer: &mut SinkBuffer,
) -> Result<(), Failed>
    ensures same { reader.new ≡ reader.old }
    ensures put { IsPut (buffered K.holds K.faults sink.old buffer.old) (buffered K.holds K.faults sink.new buffer.new) [] result }
    ensures ready { OnOk result (IsReady buffer.new reader.new) }
{
    if reader.holds_line() {
        return Ok(());
    }
    buffer.flush(sink)
}

/// Writes the replies that are gathered before the session is broken off: the fault, or that the sink failed on the way.
fn break_off<K: Sink>(sink: &mut K, buffer: &mut SinkBuffer, fault: RunFault) -> RunFault
    ensures { BreaksOff fault result (buffered K.holds K.faults sink.old buffer.old) (buffered K.holds K.faults sink.new buffer.new) }
{
    match buffer.flush(sink) {
        Ok(()) => fault,
        Err(_) => RunFault::Write,
    }
}

/// What a step of a session comes to.
enum Step {
    /// A line was taken, and the command that it completes, if it completes one, was answered.
    Line,
    /// All of the input was taken.
    End,
}

/// Puts a text, and after it the long reply that is owed, if one is.
fn put_answer<A: Answers, K: Sink>(
    answers: &A,
    text: &[u8],
    owed: Option<LongReply>,
    sink: &mut K,
    buffer: &mut SinkBuffer,
) -> Result<(), Failed>
    ensures { IsPut (buffered K.holds K.faults sink.old buffer.old) (buffered K.holds K.faults sink.new buffer.new)
        (text.now ++ owed_text owed (A.standing answers.now)) result }
{
    buffer.put(sink, text)?;
    match owed {
        Some(reply) => answers.put_long(sink, buffer, &reply),
        None => Ok(()),
    }
}

/// Answers the command that the line completes, if it completes one. The text of a reply is made in `text` before any of it is put, so that
/// after an `Err` that is want of memory nothing of it was put. After an `Err` the session is broken off.
fn answer_line<A: Answers, K: Sink>(
    alloc: Global,
    session: &mut Session<A>,
    line: Vec<u8>,
    text: &mut Vec<u8>,
    sink: &mut K,
    buffer: &mut SinkBuffer,
) -> Result<(), RunFault>
    ensures line { OnOk result (AnswersLine session.old session.new line.items
        (buffered K.holds K.faults sink.old buffer.old) (buffered K.holds K.faults sink.new buffer.new)) }
    ensures one_reply { OnOk result (IsOneReply text.new.items) }
    ensures broken_off { IfErr result (λ fault. BreaksOffAt fault session.old session.new line.items
        (buffered K.holds K.faults sink.old buffer.old) (buffered K.holds K.faults sink.new buffer.new)) }
{
    text.clear();
    let Ok(owed) = session.take_line(alloc, &line, text) else {
        return Err(break_off(sink, buffer, RunFault::Memory));
    };
    put_answer(session.answers(), text, owed, sink, buffer)?;
    Ok(())
}

/// Passes over empty lines that ask for nothing: those that the reader holds before the next line, where no submission is open.
fn pass_over<A: Answers>(reader: &mut LineReader, session: &Session<A>)
    ensures { PassesOver session.now reader.old reader.new }
{
    if !session.has_open_submission() {
        reader.pass_empty_lines();
    }
}

/// Takes the next line, if there is one, and answers the command that it completes. Whatever was served before, it is gone on with, or
/// the session ends as it is to end.
fn serve_line<A: Answers, S: Source, K: Sink>(
    alloc: Global,
    reader: &mut LineReader,
    session: &mut Session<A>,
    text: &mut Vec<u8>,
    source: &mut S,
    sink: &mut K,
    buffer: &mut SinkBuffer,
) -> Result<Step, RunFault>
    ensures { (begin : Devices)
        → Serves reader.old session.old begin (devices S.left S.faults source.old (buffered K.holds K.faults sink.old buffer.old))
        → StepsTo result reader.old reader.new session.new begin
        (devices S.left S.faults source.new (buffered K.holds K.faults sink.new buffer.new)) }
{
    pass_over(reader, session);
    make_ready(reader, sink, buffer)?;
    match reader.next_line(source) {
        Ok(Some(line)) => {
            answer_line(alloc, session, line, text, sink, buffer)?;
            Ok(Step::Line)
        }
        Ok(None) => Ok(Step::End),
        Err(fault) => Err(break_off(sink, buffer, RunFault::from(fault))),
    }
}

/// Puts a last text, and writes all that is gathered.
fn put_last<K: Sink>(sink: &mut K, buffer: &mut SinkBuffer, text: &[u8]) -> Result<(), Failed>
    ensures put { IsPut (buffered K.holds K.faults sink.old buffer.old) (buffered K.holds K.faults sink.new buffer.new) text.now result }
    ensures emptied { OnOk result (buffer.new ≡ []) }
{
    buffer.put(sink, text)?;
    buffer.flush(sink)
}

/// Takes the end of the input, and writes the replies that are still gathered. `Ok` tells whether any reply is a refusal.
fn end_session<A: Answers, K: Sink>(
    alloc: Global,
    session: Session<A>,
    text: &mut Vec<u8>,
    sink: &mut K,
    buffer: &mut SinkBuffer,
) -> Result<bool, RunFault>
    ensures { (r : Reader) (begin : Devices) (left : Option (List ℕ)) (reads : ℕ)
        → Serves r session begin (record { left = left; reads = reads; sink = buffered K.holds K.faults sink.old buffer.old })
        → r.held ≡ [] → r.ended ≡ true
        → EndsAt result begin (record { left = left; reads = reads; sink = buffered K.holds K.faults sink.new buffer.new }) }
{
    text.clear();
    let Ok(refused) = session.finish(alloc, text) else {
        return Err(break_off(sink, buffer, RunFault::Memory));
    };
    put_last(sink, buffer, text)?;
    Ok(refused)
}

/// Serves a session whose commands are answered so: takes the lines of the source to its end, and writes the replies to the sink. `Ok` tells
/// whether any reply is a refusal.
pub fn serve_lines<A: Answers, S: Source, K: Sink>(
    alloc: Global,
    answers: A,
    source: &mut S,
    sink: &mut K,
) -> Result<bool, RunFault>
    requires { A.standing answers ≡ [] }
    ensures { Ends result (S.left source.old) (S.left source.new) (K.holds sink.old) (K.holds sink.new)
        (S.faults source.old) (S.faults source.new) (K.faults sink.old) (K.faults sink.new) }
{
    let Ok(mut reader) = LineReader::new(alloc) else {
        return Err(RunFault::Memory);
    };
    let Ok(mut buffer) = SinkBuffer::new(alloc) else {
        return Err(RunFault::Memory);
    };
    let mut session = Session::new(answers);
    let mut text = Vec::new(alloc);
    'lines: loop {
        match serve_line(
            alloc,
            &mut reader,
            &mut session,
            &mut text,
            source,
            sink,
            &mut buffer,
        )? {
            Step::Line => {}
            Step::End => break,
        }
    }
    end_session(alloc, session, &mut text, sink, &mut buffer)
}
