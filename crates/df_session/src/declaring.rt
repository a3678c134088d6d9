//! A session without a document, up to the command that opens its store.
ghost use Rattle.std.specs.Prelude.{◌≡◌, [], IfOk, Ok};
ghost use Rattle.df_text.specs.Document.{document_of};

use crate::answering::{Answer, words_of};
use crate::behind::read_behind;
use crate::buffers::Buffers;
use crate::declared_frames::{Declaration, DeclaredFrames, answer_declaring};
use crate::definitions::Definitions;
use crate::fault::ShellFault;
use crate::help::COMMANDS;
use crate::lines::{Line, line_buffer, read_line, without_end};
use crate::options::{SessionEnd, SessionOptions};
use crate::prepared::Prepared;
use crate::prompts::{COMMAND_PROMPT, Prompts, greeting};
use crate::refusal::{Mistake, Refusal};
use crate::refusing::{refuse, refuse_line};
use crate::session::{Beginning, is_passed_over};
use crate::words::{lines_behind, read_words};
use crate::writing::{Status, write_all, write_answer, write_prompt};
use df_document::DocumentFault;
use df_text::ViewsFault;
use df_value::List;
use std::alloc::Global;
use std::io::{BufRead, Write};

/// What a session without a document has until its store is opened.
pub struct Declaring<'a> {
    declared: DeclaredFrames,
    command: Vec<u8>,
    record: Vec<u8>,
    options: SessionOptions<'a>,
}

// A body that owns one drops it by a call.
impl<'a> Drop for Declaring<'a> {
    fn drop(self) {
        let Declaring {
            declared,
            command,
            record,
            options: _,
        } = self;
        drop(declared);
        drop(command);
        drop(record);
    }
}

/// What comes behind a line.
enum Step {
    /// The next one.
    Next,
    /// A store, whose session begins with the line.
    Store(Beginning),
    /// Nothing: the session ends so.
    End(SessionEnd),
}

/// Where the lines lead that no store answers.
#[derive(Clone, Copy, PartialEq, Eq)]
pub enum Declared {
    /// To a store, whose session begins so.
    Store(Beginning),
    /// To the end of the session.
    End(SessionEnd),
}

impl<'a> Declaring<'a> {
    pub fn new(alloc: Global, options: SessionOptions<'a>) -> Result<Declaring<'a>, ShellFault> {
        let command = line_buffer(alloc)?;
        let record = line_buffer(alloc)?;
        Ok(Declaring {
            declared: DeclaredFrames::new(alloc),
            command,
            record,
            options,
        })
    }

    /// Writes the first line of a session.
    pub fn greet<W: Write>(&self, alloc: Global, output: &mut W) -> Result<(), ShellFault> {
        match self.options.prompts {
            Prompts::Shown => {
                let definitions = self.definitions(alloc)?;
                let text = greeting(alloc, &definitions);
                drop(definitions);
                write_all(output, text?.as_bytes())?;
            }
            Prompts::Hidden => {}
        }
        write_answer(output, self.options.framed, Status::Ready, &[])
    }

    /// Answers the lines of the input, up to one that wants a store, or to the end of the session.
    pub fn answer_lines<I: BufRead, W: Write>(
        &mut self,
        alloc: Global,
        input: &mut I,
        output: &mut W,
    ) -> Result<Declared, ShellFault> {
        for _ in 0..u64::MAX {
            match self.answer_next(alloc, input, output)? {
                Step::Next => {}
                Step::Store(beginning) => return Ok(Declared::Store(beginning)),
                Step::End(end) => return Ok(Declared::End(end)),
            }
        }
        Ok(Declared::End(SessionEnd::Whole))
    }

    // Reads a line, and answers it, if it wants no store.
    fn answer_next<I: BufRead, W: Write>(
        &mut self,
        alloc: Global,
        input: &mut I,
        output: &mut W,
    ) -> Result<Step, ShellFault> {
        write_prompt(output, self.options.prompts, COMMAND_PROMPT)?;
        match read_line(input, &mut self.command) {
            Ok(Line::Whole) => self.answer_line(alloc, input, output),
            Ok(Line::TooLong) => {
                let long = Refusal::Mistake(Mistake::LongLine);
                Ok(step_of(refuse(alloc, output, self.options, "", &long)?))
            }
            Ok(Line::End) => {
                write_prompt(output, self.options.prompts, b"\n")?;
                Ok(Step::End(SessionEnd::Whole))
            }
            Err(_) => Err(ShellFault::Read),
        }
    }

    fn answer_line<I: BufRead, W: Write>(
        &mut self,
        alloc: Global,
        input: &mut I,
        output: &mut W,
    ) -> Result<Step, ShellFault> {
        let line = without_end(self.command.as_slice());
        if is_passed_over(line) {
            return Ok(Step::Next);
        }
        match declare_line(alloc, &mut self.declared, line) {
            Ok(Declaration::Asked) => Ok(Step::Store(Beginning::Question)),
            Ok(Declaration::Opens) => Ok(Step::Store(Beginning::Command)),
            Ok(Declaration::Answered(answer)) => tell(output, self.options, answer),
            Err(refusal) => {
                let refused = self.refuse(alloc, input, output, &refusal);
                drop(refusal);
                Ok(step_of(refused?))
            }
        }
    }

    /// Answers the last line with a refusal, and passes over the lines behind it. Some: that ends the session.
    pub fn refuse<I: BufRead, W: Write>(
        &mut self,
        alloc: Global,
        input: &mut I,
        output: &mut W,
        refusal: &Refusal,
    ) -> Result<Option<SessionEnd>, ShellFault> {
        let line = without_end(self.command.as_slice());
        let words = read_words(alloc, line);
        let following = lines_behind(alloc, &words, line);
        drop(words);
        let prompts = self.options.prompts;
        let record = &mut self.record;
        let lines = read_behind(alloc, prompts, input, output, line, record, following)?;
        drop(lines);
        refuse_line(alloc, output, self.options, line, refusal)
    }

    /// What a store of the declared frames is opened with, for a session that begins so.
    pub fn prepare(&self, alloc: Global, beginning: Beginning) -> Result<Prepared, ShellFault>
        ensures frames { IfOk result (λ p.
            document_of self.now.declared.document.items ≡ Ok p.definitions.document) }
        ensures rest { IfOk result (λ p. (p.definitions.plans ≡ []) × (p.pieces ≡ [])) }
    {
        let buffers = Buffers::with_command(alloc, self.command.as_slice())?;
        let definitions = self.definitions(alloc)?;
        Ok(Prepared {
            definitions,
            pieces: List::from_vec(Vec::new(alloc)),
            refused: List::from_vec(Vec::new(alloc)),
            buffers,
            beginning,
        })
    }

    fn definitions(&self, alloc: Global) -> Result<Definitions, ShellFault>
        ensures frames { IfOk result (λ d.
            document_of self.now.declared.document.items ≡ Ok d.document) }
        ensures plans { IfOk result (λ d. d.plans ≡ []) }
    {
        match self.declared.read(alloc) {
            Ok(document) => Ok(Definitions {
                document,
                plans: List::from_vec(Vec::new(alloc)),
            }),
            Err(ViewsFault::Memory) => Err(ShellFault::Memory),
            Err(fault) => Err(ShellFault::Document(DocumentFault::Views(fault))),
        }
    }
}

fn declare_line(
    alloc: Global,
    declared: &mut DeclaredFrames,
    line: &[u8],
) -> Result<Declaration, Refusal> {
    let record = read_words(alloc, line)?;
    let words = words_of(alloc, &record)?;
    answer_declaring(alloc, &COMMANDS, declared, words.as_slice())
}

// What comes behind a refusal.
fn step_of(end: Option<SessionEnd>) -> Step {
    match end {
        Some(end) => Step::End(end),
        None => Step::Next,
    }
}

fn tell<W: Write>(
    output: &mut W,
    options: SessionOptions<'_>,
    answer: Answer,
) -> Result<Step, ShellFault> {
    match answer {
        Answer::Ended => Ok(Step::End(SessionEnd::Whole)),
        answer => {
            let written = write_answer(output, options.framed, Status::Ok, &[answer.bytes()]);
            drop(answer);
            written?;
            Ok(Step::Next)
        }
    }
}
