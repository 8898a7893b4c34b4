//! What one more text line makes of what was read.

ghost use Rattle.std.specs.Prelude.{◌≡◌, ◌≢◌, ◌<◌, ◌^◌, [], IfOk, IfSome, Some, None, Option, Result, length, map};
ghost use Rattle.ct_text.specs.Line.{words_of};
ghost use Rattle.ct_text.specs.Gathering.{gathered};
ghost use Rattle.ct_rules.specs.Rule.{rule_side};
ghost use Rattle.ct_piece.specs.Submission.{submitted};
ghost use Rattle.ct_verify.specs.Heading.{heading_of};
ghost use Rattle.ct_verify.specs.Inside.StatedLine.{StatedLineValue, line_of};
ghost use Rattle.ct_verify.specs.Inside.Read.{unread};
ghost use Rattle.ct_verify.specs.Inside.Steps.{step_of, is_end};
ghost use Rattle.ct_verify.specs.Document.{why_of};
ghost use Rattle.ct_verify.specs.Inside.Reading.{by_rule, read_line, read_heading, is_only, read_body, after_block, read_block, read_next};
ghost use Rattle.ct_verify.specs.Inside.Verdict.{verdict_at_end};

use crate::failure::Failure;
use crate::heading::{Heading, parse_heading};
use crate::part::{Block, Part};
use crate::reading::Reading;
use crate::stated_line::{StatedLine, parse_line};
use crate::verdict::{Verdict, Why};
use ct_derive::{ClassSizes, LineFault, add_line};
use ct_names::Id;
use ct_piece::SubmitFault;
use ct_pieces::Pieces;
use ct_rules::Rule;
use ct_text::{Gathered, Gathering, Text, first_words};
use std::alloc::{AllocError, Global};
use std::mem;

/// The block of evidence that began on this text line fails by the fault; want of memory is no verdict.
fn refused(begun: usize, fault: SubmitFault) -> Result<Failure, AllocError>
    ensures other { IfOk result (λ failure. fault ≢ SubmitFault.Memory) }
    ensures failure { IfOk result (λ failure. failure ≡ record { line = begun; why = Why.Evidence fault }) }
{
    if fault.is_memory() {
        return Err(AllocError);
    }
    Ok(failure(begun, Why::Evidence(fault)))
}

/// The text line with this number fails.
fn failure(line: usize, why: Why) -> Failure
    ensures { result ≡ record { line = line; why = why } }
{
    Failure { line, why }
}

/// Why a line fails that does not follow from those before it.
fn why_of(fault: LineFault) -> Why
    ensures { result ≡ why_of fault }
{
    match fault {
        LineFault::NoRule => Why::Rule,
        LineFault::NoPremise => Why::Premise,
        LineFault::OtherValue { stated, given } => Why::Value(stated, given),
    }
}

/// Whether the words are this one alone.
fn is_only(name: &[u8], words: &[&[u8]]) -> bool
    ensures { result ≡ is_only name.now (map (λ word. word.now) words.now) }
{
    match words {
        [word] => *word == name,
        _ => false,
    }
}

/// The words of a line. `Err` is want of memory.
fn line_words(alloc: Global, line: &[u8]) -> Result<Vec<&[u8]>, AllocError>
    ensures { IfOk result (λ words. map (λ word. word.now) words.items ≡ words_of line.now) }
{
    first_words(alloc, line, line.len() + 1)
}

impl Reading {
    /// Nothing was read.
    pub(crate) fn new(alloc: Global) -> Reading
        ensures { result ≡ unread }
    {
        Reading {
            pieces: Pieces::new(alloc),
            supports: Vec::new(alloc),
            sizes: ClassSizes::new(alloc),
            lines: Vec::new(alloc),
            part: Part::Start,
        }
    }

    /// After a line that states this, by this rule, where it is one.
    fn read_by_rule(
        &mut self,
        alloc: Global,
        number: usize,
        line: StatedLine,
        rule: Option<Rule>,
    ) -> Result<Option<Failure>, AllocError>
        requires { IfSome rule (λ r. line.claim.side ≡ rule_side r) }
        ensures { IfOk result (λ failure. step_of failure self.new ≡ by_rule self.old number line rule) }
    {
        let Some(rule) = rule else {
            return Ok(Some(failure(number, Why::Rule)));
        };
        let fault = add_line(
            alloc,
            &self.supports,
            &mut self.sizes,
            &mut self.lines,
            line.claim,
            rule,
            &line.from,
        )?;
        if let Some(fault) = fault {
            return Ok(Some(failure(number, why_of(fault))));
        }
        self.part = Part::Body;
        Ok(None)
    }

    /// After a text line that states this line, where it states one.
    fn read_line(
        &mut self,
        alloc: Global,
        number: usize,
        line: Option<StatedLine>,
    ) -> Result<Option<Failure>, AllocError>
        requires { IfSome line (λ l. rule_side l.rule.rule ≡ l.claim.side) }
        ensures { IfOk result (λ failure. step_of failure self.new ≡ read_line self.old number line) }
    {
        let Some(line) = line else {
            return Ok(Some(failure(number, Why::Form)));
        };
        if line.number != self.lines.len() as u64 + 1 {
            return Ok(Some(failure(number, Why::Form)));
        }
        let rule = line.rule.over(&self.pieces);
        self.read_by_rule(alloc, number, line, rule)
    }

    /// After a text line that heads this block of evidence, where it heads one.
    fn read_heading(
        &mut self,
        alloc: Global,
        number: usize,
        heading: Option<Heading>,
    ) -> Option<Failure>
        ensures { step_of result self.new ≡ read_heading self.old number heading }
    {
        match heading {
            Some(Heading { id, extent }) if self.lines.is_empty() => {
                self.part = Part::Evidence(Block {
                    line: number,
                    id,
                    document: Gathering::new(alloc, extent),
                });
                None
            }
            _ => Some(failure(number, Why::Form)),
        }
    }

    /// Whether the words end the document: `done`, after a line.
    fn is_end(&self, words: &[&[u8]]) -> bool
        ensures { result ≡ is_end self.now (map (λ word. word.now) words.now) }
    {
        is_only(b"done", words) && !self.lines.is_empty()
    }

    /// After the text line of these words, where blocks of evidence, lines, or the end may stand.
    fn read_body(
        &mut self,
        alloc: Global,
        number: usize,
        words: &[&[u8]],
    ) -> Result<Option<Failure>, AllocError>
        ensures { IfOk result (λ failure. step_of failure self.new ≡ read_body self.old number (map (λ word. word.now) words.now)) }
    {
        let [word, rest @ ..] = words else {
            return Ok(Some(failure(number, Why::Form)));
        };
        if *word == b"line".as_slice() {
            let line = parse_line(alloc, rest)?;
            return self.read_line(alloc, number, line);
        }
        if *word == b"evidence".as_slice() {
            return Ok(self.read_heading(alloc, number, parse_heading(rest)));
        }
        if self.is_end(words) {
            self.part = Part::Done;
            return Ok(None);
        }
        Ok(Some(failure(number, Why::Form)))
    }

    /// After the submission of a document under an id. The block of evidence began on this text line.
    fn submit(
        &mut self,
        begun: usize,
        id: Id,
        document: Text,
    ) -> Result<Option<Failure>, AllocError>
        ensures { IfOk result (λ failure. step_of failure self.new ≡ after_block self.old begun (submitted self.old.pieces id document)) }
    {
        self.supports.reserve(1)?;
        match self.pieces.submit_text(id, document) {
            Err(fault) => Ok(Some(refused(begun, fault)?)),
            Ok(new_piece) => {
                self.supports.push_reserved(new_piece.support);
                self.part = Part::Body;
                Ok(None)
            }
        }
    }

    /// After one more text line of a block of evidence.
    fn read_block(&mut self, block: Block, text: &[u8]) -> Result<Option<Failure>, AllocError>
        ensures { IfOk result (λ failure. step_of failure self.new ≡ read_block self.old block (gathered block.document text.now)) }
    {
        let Block { line, id, document } = block;
        match document.take_line(text)? {
            Gathered::More(document) => {
                self.part = Part::Evidence(Block { line, id, document });
                Ok(None)
            }
            Gathered::Whole(document) => self.submit(line, id, document),
        }
    }

    /// Reads one more text line, the one with this number: where it fails, that. `Err` is want of memory.
    #[tactic(auto, unfolding(crate::specs::Inside::Reading::read_next))]
    pub(crate) fn read(
        &mut self,
        alloc: Global,
        number: usize,
        text: &[u8],
    ) -> Result<Option<Failure>, AllocError>
        ensures { IfOk result (λ failure. step_of failure self.new ≡ read_next self.old number text.now) }
    {
        match mem::replace(&mut self.part, Part::Body) {
            Part::Start => {
                let words = first_words(alloc, text, 2)?;
                if is_only(b"derivation", &words) {
                    Ok(None)
                } else {
                    Ok(Some(failure(number, Why::Form)))
                }
            }
            Part::Body => {
                let words = line_words(alloc, text)?;
                self.read_body(alloc, number, &words)
            }
            Part::Evidence(block) => self.read_block(block, text),
            Part::Done => Ok(Some(failure(number, Why::Form))),
        }
    }

    /// The verdict where the text lines end here, and the next would have this number.
    pub(crate) fn ended(&self, number: usize) -> Verdict
        ensures { result ≡ verdict_at_end self.now.part number }
    {
        match &self.part {
            Part::Start | Part::Body => Verdict::No(number, Why::Form),
            Part::Evidence(block) => Verdict::No(block.line, Why::Form),
            Part::Done => Verdict::Yes,
        }
    }
}
