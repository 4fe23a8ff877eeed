// A whole session, in words.
ghost use Rattle.std.specs.Prelude.{◌≡◌, false, IfOk, string_bytes};
ghost use Rattle.bench.specs.Benches.{declared};
ghost use Rattle.search.specs.Verdicts.{value_of};
ghost use Rattle.runs.specs.Heard.{answer_heard, answers_heard};
ghost use Rattle.benchrun.specs.Sessions.{answer_lines, finding_lines, lines_printed, why_not};
ghost use Rattle.benchrun.specs.Transcripts.{LinesPerformed, SessionHeld};

use crate::command::Command;
use crate::lines::{write_clash, write_setup};
use crate::performing::{is_judge, is_performed};
use crate::reading::read_lines;
use crate::said::Said;
use crate::session::Session;
use bench::draft::Draft;
use load::declare::declare_terms;
use runs::heard::Heard;
use runs::table_and_span::run_with_table_and_span;
use search::verdict::Verdict;
use sheet::refusal::Refusal;
use span::span::Span;
use std::alloc::{AllocError, Global};
use std::marker::Brand;
use table::table::Table;

// What is printed of a session.
#[derive(Drop)]
pub(crate) struct Transcript {
    pub(crate) text: String,
    // not every line was performed; only want of memory leads to this
    pub(crate) lines_left: bool,
}

// Declares the terms, and performs the lines behind them at a new bench with the table engine and the span engine.
pub(crate) fn run_session(
    heap: Global,
    input: &[u8],
) -> Result<Result<Transcript, Refusal>, AllocError>
    ensures { IfOk result (λ answer. SessionHeld input.now answer) }
{
    let mut draft = Draft::new(heap)?;
    let lines = match declare_terms(&mut draft, input) {
        Ok(lines) => lines,
        Err(refusal) => return Ok(Err(refusal)),
    };
    let said = read_lines(heap, lines)?;
    let transcript = perform_lines::<Brand>(heap, draft, &said)?;
    Ok(Ok(transcript))
}

// Performs what the lines say.
fn perform_lines<S: Said>(
    heap: Global,
    draft: Draft,
    said: &[Option<Command>],
) -> Result<Transcript, AllocError>
    requires { said.now ≡ S.said }
    ensures { IfOk result (λ t. LinesPerformed (declared draft) said.now t) }
{
    let mut session = Session::<S>::new(heap, said);
    let _ = run_with_table_and_span(
        draft,
        Table::new(heap)?,
        Span::new(heap)?,
        &mut session,
        u64::MAX,
    );
    let text = write_session(heap, &session.said[..session.passed], &session.heard)?;
    let lines_left = session.passed < session.said.len();
    Ok(Transcript { text, lines_left })
}

// What is printed of these lines, with the answers noted.
fn write_session(
    heap: Global,
    said: &[Option<Command>],
    notes: &[Heard],
) -> Result<String, AllocError>
    ensures { IfOk result (λ text. string_bytes text ≡ lines_printed false said.now (answers_heard notes.now)) }
{
    let mut text = String::new(heap);
    let mut shown = false;
    let mut rest = notes;
    for line in said {
        if !is_performed(shown, *line) {
            text.push_str(why_not(shown, *line))?;
            continue;
        }
        if let [note, more @ ..] = rest {
            let lines = write_note(heap, note)?;
            text.push_str(lines.as_str())?;
            rest = more;
        }
        shown = is_judge(*line);
    }
    Ok(text)
}

// Why a line is not performed, where a result is shown or not.
fn why_not(shown: bool, said: Option<Command>) -> &'static str
    ensures { result.now ≡ why_not shown said }
{
    if said.is_none() {
        return "no command\n";
    }
    if shown {
        return "not now: a result is shown, reopen first\n";
    }
    "not now: no result is shown\n"
}

fn write_note(heap: Global, note: &Heard) -> Result<String, AllocError>
    ensures { IfOk result (λ text. string_bytes text ≡ answer_lines (answer_heard note.now)) }
{
    match note {
        Heard::Done => String::from_str(heap, "done\n"),
        Heard::Refused(fault) => format!(in heap; "refused {fault}\n"),
        Heard::Judged(verdict) => write_verdict(heap, verdict),
    }
}

fn write_verdict(heap: Global, verdict: &Verdict) -> Result<String, AllocError>
    ensures { IfOk result (λ text. string_bytes text ≡ finding_lines (value_of verdict.now)) }
{
    let text = match verdict {
        Verdict::Arrangement { codes } => write_setup(heap, codes.as_slice())?,
        Verdict::Clash { rows } => write_clash(heap, rows.as_slice())?,
    };
    format!(in heap; "{text}\n")
}
