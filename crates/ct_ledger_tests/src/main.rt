//! Makes calls on a ledger, and after each that changes nothing, for a fault or for want of memory, looks whether all is as before. A call that
//! wants memory is made again.
#![tactic(auto)]

mod answer;
mod call;
mod documents;
mod noted;

use crate::answer::Answer;
use crate::call::{Call, make};
use crate::documents::{NR, OVER_NR, REFUSED, STANDING, Stated, TRIED};
use crate::noted::Noted;
use ct_ledger::Ledger;
use std::io;

/// Prints what is not as it was noted.
fn tell_changes(rt: &(impl Print + AllocGlobal), noted: &Noted, ledger: &Ledger) -> io::Result<()> {
    let now = Noted::of(rt.alloc(), ledger)?;
    match noted.difference(&now) {
        Some(place) => println!(rt; "{place} changed"),
        None => Ok(()),
    }
}

/// The answer, or that of the same call made again, where it is want of memory.
fn without_want(
    rt: &(impl Eprint + AllocGlobal),
    ledger: &mut Ledger,
    call: Call,
    piece: Stated<'_>,
    answer: Answer,
) -> io::Result<Answer> {
    if !matches!(answer, Answer::Memory) {
        return Ok(answer);
    }
    eprintln!(rt; "{} {}: want of memory", call.name(), piece.id)?;
    Ok(make(rt.alloc(), ledger, call, piece)?)
}

/// Makes the call, and prints what changed where it is to change nothing: its answer.
fn watched(
    rt: &(impl Print + AllocGlobal),
    ledger: &mut Ledger,
    call: Call,
    piece: Stated<'_>,
) -> io::Result<Answer> {
    let noted = Noted::of(rt.alloc(), ledger)?;
    let answer = make(rt.alloc(), ledger, call, piece)?;
    if answer.is_fault() {
        tell_changes(rt, &noted, ledger)?;
    }
    Ok(answer)
}

/// Makes the call, again where it wants memory, and prints its answer. Prints what changed by a call that is to change nothing.
fn try_call(
    rt: &(impl Print + Eprint + AllocGlobal),
    ledger: &mut Ledger,
    call: Call,
    piece: Stated<'_>,
) -> io::Result<()> {
    print!(rt; "{} {}: ", call.name(), piece.id)?;
    let answer = watched(rt, ledger, call, piece)?;
    without_want(rt, ledger, call, piece, answer)?.print(rt)
}

/// Tries to submit the piece, to withdraw it and to admit it.
fn try_each_call(
    rt: &(impl Print + Eprint + AllocGlobal),
    ledger: &mut Ledger,
    piece: Stated<'_>,
) -> io::Result<()> {
    try_call(rt, ledger, Call::Submit, piece)?;
    try_call(rt, ledger, Call::Withdraw, piece)?;
    try_call(rt, ledger, Call::Admit, piece)
}

/// Tries all calls.
fn try_all(rt: &(impl Print + Eprint + AllocGlobal), ledger: &mut Ledger) -> io::Result<()> {
    for piece in &STANDING {
        try_call(rt, ledger, Call::Submit, *piece)?;
    }
    for piece in &TRIED {
        try_each_call(rt, ledger, *piece)?;
    }
    for (call, piece) in &REFUSED {
        try_call(rt, ledger, *call, *piece)?;
    }
    for piece in &OVER_NR {
        try_call(rt, ledger, Call::Submit, *piece)?;
    }
    try_call(rt, ledger, Call::WithdrawAll, NR)
}

/// Prints how many pieces and bounds the ledger has.
fn print_counts(rt: &(impl Print + AllocGlobal), ledger: &Ledger) -> io::Result<()> {
    let noted = Noted::of(rt.alloc(), ledger)?;
    println!(rt; "{} pieces, {} bounds", noted.pieces(), noted.bounds())
}

fn main(rt: HostRuntime) -> io::Result<()> {
    let mut ledger = Ledger::new(rt.alloc())?;
    try_all(&rt, &mut ledger)?;
    print_counts(&rt, &ledger)
}
