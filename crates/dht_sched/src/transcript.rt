//! The lines of transcripts, printed.

ghost use Rattle.std.specs.Prelude.{◌≡◌, ◌++◌, ◌∷◌, [], List, OnOk, OnErr};
ghost use Rattle.dht_sched.specs.Transcript.{cause_word, text_of, line_text, lines_text, dump_text, dump_lines_text, malformed_text, limit_text, usage_text};
ghost use Rattle.dht_sched.specs.Spelling.{bricks_words};
ghost use Rattle.dht_types.specs.declared.lines.Line.{Line};
ghost use Rattle.dht_types.specs.declared.lines.DumpLine.{DumpLine};
ghost use Rattle.dht_types.specs.declared.lines.Line.TheVariants.{Called, Stepped, Waited, Tree, Answered};

use crate::fields::{Field, print_fields};
use crate::kinds::{reply_word, request_word, verb_word};
use dht_types::calls::{Answer, Call, TreeStep};
use dht_types::errors::errno_word;
use dht_types::identifiers::{BrickNo, CallNo, ClientNo, Gfid};
use dht_types::lines::{Cause, Line, ReplyKind, RequestKind};
use dht_types::volumes::Weights;
use std::alloc::AllocError;

fn cause_word(cause: Cause) -> &'static str
    ensures { result.now ≡ cause_word cause }
{
    match cause {
        Cause::Unknown => "unknown",
        Cause::Dead => "dead",
        Cause::Busy => "busy",
        Cause::Idle => "idle",
        Cause::Answer => "answer",
        Cause::Open => "open",
        Cause::Fewer => "fewer",
    }
}

/// A call was accepted.
#[tactic(auto, unfolding(crate::specs::Transcript::line_text))]
fn print_call(
    out: &mut Vec<u8>,
    number: CallNo,
    client: ClientNo,
    call: &Call<Gfid>,
) -> Result<(), AllocError>
    ensures ok { OnOk result (out.new.items
        ≡ out.old.items ++ line_text (Called number client call.now)) }
    ensures err { OnErr result (out.new.items ≡ out.old.items) }
{
    let number = Field::Number(number.0);
    let client = Field::Number(u64::from(client.0));
    let verb = Field::Word(verb_word(call));
    let directory = Field::Gfid(call.directory());
    let name = Field::CallName(call.name());
    print_fields(out, "call", &[number, client, verb, directory, name])
}

/// A brick served a request.
#[tactic(auto, unfolding(crate::specs::Transcript::line_text))]
fn print_step(
    out: &mut Vec<u8>,
    number: CallNo,
    client: ClientNo,
    brick: BrickNo,
    kind: RequestKind,
    reply: ReplyKind,
) -> Result<(), AllocError>
    ensures ok { OnOk result (out.new.items
        ≡ out.old.items ++ line_text (Stepped number client brick kind reply)) }
    ensures err { OnErr result (out.new.items ≡ out.old.items) }
{
    let number = Field::Number(number.0);
    let client = Field::Number(u64::from(client.0));
    let brick = Field::Number(u64::from(brick.0));
    let kind = Field::Word(request_word(kind));
    let reply = Field::Word(reply_word(reply));
    print_fields(out, "step", &[number, client, brick, kind, reply])
}

/// A lock waits.
#[tactic(auto, unfolding(crate::specs::Transcript::line_text))]
fn print_wait(
    out: &mut Vec<u8>,
    number: CallNo,
    client: ClientNo,
    brick: BrickNo,
    holder: ClientNo,
) -> Result<(), AllocError>
    ensures ok { OnOk result (out.new.items
        ≡ out.old.items ++ line_text (Waited number client brick holder)) }
    ensures err { OnErr result (out.new.items ≡ out.old.items) }
{
    let number = Field::Number(number.0);
    let client = Field::Number(u64::from(client.0));
    let brick = Field::Number(u64::from(brick.0));
    let holder = Field::Number(u64::from(holder.0));
    print_fields(out, "wait", &[number, client, brick, holder])
}

/// The tree changed.
#[tactic(auto, unfolding(crate::specs::Transcript::line_text))]
fn print_tree(out: &mut Vec<u8>, number: CallNo, step: &TreeStep) -> Result<(), AllocError>
    ensures ok { OnOk result (out.new.items ≡ out.old.items ++ line_text (Tree number step.now)) }
    ensures err { OnErr result (out.new.items ≡ out.old.items) }
{
    let number = Field::Number(number.0);
    match step {
        TreeStep::AddFile(directory, name, file) => {
            let name = Field::Name(name.as_bytes());
            let (directory, file) = (Field::Gfid(*directory), Field::Gfid(*file));
            let word = Field::Word("add-file");
            print_fields(out, "tree", &[number, word, directory, name, file])
        }
        TreeStep::AddDir(directory, name, made) => {
            let name = Field::Name(name.as_bytes());
            let (directory, made) = (Field::Gfid(*directory), Field::Gfid(*made));
            let word = Field::Word("add-dir");
            print_fields(out, "tree", &[number, word, directory, name, made])
        }
        TreeStep::RemoveFile(directory, name) => {
            let name = Field::Name(name.as_bytes());
            let directory = Field::Gfid(*directory);
            let word = Field::Word("remove-file");
            print_fields(out, "tree", &[number, word, directory, name])
        }
        TreeStep::RemoveDir(directory, name) => {
            let name = Field::Name(name.as_bytes());
            let directory = Field::Gfid(*directory);
            let word = Field::Word("remove-dir");
            print_fields(out, "tree", &[number, word, directory, name])
        }
    }
}

/// A call answered.
#[tactic(auto, unfolding(crate::specs::Transcript::line_text))]
fn print_answer(
    out: &mut Vec<u8>,
    number: CallNo,
    client: ClientNo,
    point: Option<u64>,
    answer: Answer,
) -> Result<(), AllocError>
    ensures ok { OnOk result (out.new.items
        ≡ out.old.items ++ line_text (Answered number client point answer)) }
    ensures err { OnErr result (out.new.items ≡ out.old.items) }
{
    let number = Field::Number(number.0);
    let client = Field::Number(u64::from(client.0));
    let point = Field::Point(point);
    let (word, gfid) = match answer {
        Answer::File(file) => ("file", file),
        Answer::Dir(dir) => ("dir", dir),
        Answer::Made(file) => ("made", file),
        Answer::Done => {
            return print_fields(out, "answer", &[number, client, point, Field::Word("ok")]);
        }
        Answer::Fault(error) => {
            let error = Field::Word(errno_word(error));
            return print_fields(out, "answer", &[number, client, point, error]);
        }
    };
    let word = Field::Word(word);
    print_fields(
        out,
        "answer",
        &[number, client, point, word, Field::Gfid(gfid)],
    )
}

/// The bricks have these weights, from the line of this first word on.
fn print_bricks(out: &mut Vec<u8>, first: &str, weights: &Weights) -> Result<(), AllocError>
    ensures ok { OnOk result (out.new.items
        ≡ out.old.items ++ text_of (first.now ∷ bricks_words weights.now)) }
    ensures err { OnErr result (out.new.items ≡ out.old.items) }
{
    let weights = weights.as_slice();
    let bricks = Field::Number(weights.len() as u64);
    print_fields(out, first, &[bricks, Field::Numbers(weights)])
}

/// Appends the line of an event to `out`, with its newline. Where memory runs out, `out` stays as
/// it was.
#[tactic(auto, unfolding(crate::specs::Transcript::line_text))]
pub fn print_line(line: &Line, out: &mut Vec<u8>) -> Result<(), AllocError>
    ensures ok { OnOk result (out.new.items ≡ out.old.items ++ line_text line.now) }
    ensures err { OnErr result (out.new.items ≡ out.old.items) }
{
    match line {
        Line::Volume(weights) => print_bricks(out, "volume", weights),
        Line::Remounted(weights) => print_bricks(out, "remount", weights),
        Line::Called(number, client, call) => print_call(out, *number, *client, call),
        Line::Stepped(number, client, brick, kind, reply) => {
            print_step(out, *number, *client, *brick, *kind, *reply)
        }
        Line::Waited(number, client, brick, holder) => {
            print_wait(out, *number, *client, *brick, *holder)
        }
        Line::Tree(number, step) => print_tree(out, *number, step),
        Line::Answered(number, client, point, answer) => {
            print_answer(out, *number, *client, *point, *answer)
        }
        Line::WentDown(brick) => print_fields(out, "down", &[Field::Number(u64::from(brick.0))]),
        Line::CameUp(brick) => print_fields(out, "up", &[Field::Number(u64::from(brick.0))]),
        Line::Died(client) => print_fields(out, "die", &[Field::Number(u64::from(client.0))]),
        Line::Refused(number, cause) => {
            let cause = Field::Word(cause_word(*cause));
            print_fields(out, "refused", &[Field::Number(*number), cause])
        }
    }
}

/// Appends the last line of a run whose schedule's line of this number, from 1, is malformed. Where
/// memory runs out, `out` stays as it was.
#[tactic(auto, unfolding(crate::specs::Transcript::malformed_text))]
pub fn print_malformed(number: u64, out: &mut Vec<u8>) -> Result<(), AllocError>
    ensures ok { OnOk result (out.new.items ≡ out.old.items ++ malformed_text number) }
    ensures err { OnErr result (out.new.items ≡ out.old.items) }
{
    print_fields(out, "malformed", &[Field::Number(number)])
}

/// Appends the last line of a run that has had all its steps. Where memory runs out, `out` stays as
/// it was.
#[tactic(auto, unfolding(crate::specs::Transcript::limit_text))]
pub fn print_limit(out: &mut Vec<u8>) -> Result<(), AllocError>
    ensures ok { OnOk result (out.new.items ≡ out.old.items ++ limit_text) }
    ensures err { OnErr result (out.new.items ≡ out.old.items) }
{
    print_fields(out, "limit", &[])
}

/// Appends what the program can be asked for. Where memory runs out, `out` stays as it was.
#[tactic(auto, unfolding(crate::specs::Transcript::usage_text))]
pub fn print_usage(out: &mut Vec<u8>) -> Result<(), AllocError>
    ensures ok { OnOk result (out.new.items ≡ out.old.items ++ usage_text) }
    ensures err { OnErr result (out.new.items ≡ out.old.items) }
{
    out.extend_from_slice(b"usage: dhtvol replay, serve, hash, layout, bulk\n")
}

/// The text of lines grows by the text of each: this is a law for callers, and does nothing.
pub fn lines_follow()
    ensures lines { (lines : List Line) (line : Line)
        → lines_text (lines ++ line ∷ []) ≡ lines_text lines ++ line_text line }
    ensures dump { (lines : List DumpLine) (line : DumpLine)
        → dump_lines_text (lines ++ line ∷ []) ≡ dump_lines_text lines ++ dump_text line }
{}
