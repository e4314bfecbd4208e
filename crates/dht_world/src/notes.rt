//! The lines of one request.

ghost use Rattle.std.specs.Prelude.{◌≡◌, ◌+◌, ◌≤◌, ◌<◌, [], ◌∷◌, ◌++◌, vec_len, vec_capacity, length};
ghost use Rattle.dht_section.specs.Moves.{at_home, step_of};
ghost use Rattle.dht_world.specs.Following.{refusal_point};
ghost use Rattle.dht_world.specs.Lines.{request_lines};

use dht_brick::replies::Reply;
use dht_brick::requests::{NameRequest, Request};
use dht_section::machine::Ask;
use dht_types::calls::TreeStep;
use dht_types::errors::Errno;
use dht_types::identifiers::{BrickNo, CallNo, ClientNo, Gfid};
use dht_types::lines::Line;

/// Appends a line, for which there is room.
pub fn push_line(out: &mut Vec<Line>, line: Line)
    requires { vec_len out.old < vec_capacity out.old }
    ensures items { out.new.items ≡ out.old.items ++ line ∷ [] }
    ensures room { vec_capacity out.old ≤ vec_capacity out.new }
{
    let _ = out.push(line);
}

/// This step, if a brick is the home of the directory.
fn at_home(brick: BrickNo, directory: Gfid, step: TreeStep) -> Option<TreeStep>
    ensures { result ≡ at_home brick.0 directory step }
{
    if brick.0 == directory.home().0 {
        Some(step)
    } else {
        None
    }
}

/// The step of the tree that a brick's reply to a request stands for, if any. A directory is made
/// and dropped on each brick, but only at its home is that a step of the tree.
pub fn step_of(brick: BrickNo, request: &Request, reply: &Reply) -> Option<TreeStep>
    ensures { result ≡ step_of brick.0 request.now reply.now }
{
    let (Reply::Ok(_), Request::OnNames(request)) = (reply, request) else {
        return None;
    };
    match request {
        NameRequest::Create(dir, name, file) => Some(TreeStep::AddFile(*dir, *name, *file)),
        NameRequest::MakeDir {
            dir,
            name,
            made,
            ..
        } => at_home(brick, *made, TreeStep::AddDir(*dir, *name, *made)),
        NameRequest::Unlink(dir, name, _) => Some(TreeStep::RemoveFile(*dir, *name)),
        NameRequest::DropDir(dir, name, dropped) => {
            at_home(brick, *dropped, TreeStep::RemoveDir(*dir, *name))
        }
        _ => None,
    }
}

/// The point of a refusal before a call's first request; the call line has this number. A directory
/// that is none of the tree is none at that line.
pub fn refusal_point(line: u64, refusal: Errno) -> Option<u64>
    ensures { result ≡ refusal_point line refusal }
{
    match refusal {
        Errno::Estale => Some(line),
        _ => None,
    }
}

/// Appends the lines of a request that was answered, and gives how many they are.
pub fn push_request(
    out: &mut Vec<Line>,
    call: CallNo,
    client: ClientNo,
    ask: &Ask,
    reply: &Reply,
) -> u64
    requires { vec_len out.old + 2 ≤ vec_capacity out.old }
    ensures items { out.new.items ≡ out.old.items ++ request_lines call client ask.now reply.now }
    ensures count { result ≡ length (request_lines call client ask.now reply.now) }
    ensures few { result ≤ 2 }
    ensures room { vec_capacity out.old ≤ vec_capacity out.new }
{
    if let Reply::Wait(holder) = reply {
        push_line(out, Line::Waited(call, client, ask.brick, *holder));
        return 1;
    }
    push_line(
        out,
        Line::Stepped(call, client, ask.brick, ask.request.kind(), reply.kind()),
    );
    match step_of(ask.brick, &ask.request, reply) {
        Some(step) => {
            push_line(out, Line::Tree(call, step));
            2
        }
        None => 1,
    }
}
