//! The trees that the tree lines of a transcript make, and what they say to calls. Each thing is
//! found by looking through the lines.

use dht_types::calls::{Answer, Call, TreeStep};
use dht_types::errors::Errno;
use dht_types::identifiers::Gfid;
use dht_types::lines::Line;

/// How many names lead to a directory from the root at most.
const MOST_NAMES: u64 = 64;

/// A step that a tree tells a call to do. Its name is what the call says, which may be any bytes.
#[derive(Clone, Copy)]
pub enum Told<'a> {
    /// In this directory this name is to be this file's.
    AddFile(Gfid, &'a [u8], Gfid),
    /// In this directory this name is to be this directory's.
    AddDir(Gfid, &'a [u8], Gfid),
    /// In this directory this name, which is a file's, is to stand for nothing.
    RemoveFile(Gfid, &'a [u8]),
    /// In this directory this name, which is a directory's, is to stand for nothing.
    RemoveDir(Gfid, &'a [u8]),
}

/// What a tree says to a call. No call does more than one step.
#[derive(Clone, Copy)]
pub enum Said<'a> {
    /// It is refused.
    Refuse(Errno),
    /// It is to say this.
    Say(Answer),
    /// It is to do this step, and then to say this.
    Do(Told<'a>, Answer),
}

/// What a name stands for.
#[derive(Clone, Copy, PartialEq, Eq)]
pub enum Node {
    /// This file.
    File(Gfid),
    /// This directory.
    Dir(Gfid),
}

/// The directory of the name that a step changes, and the name.
pub fn slot_of(step: &TreeStep) -> (Gfid, &[u8]) {
    match step {
        TreeStep::AddFile(directory, name, _)
        | TreeStep::AddDir(directory, name, _)
        | TreeStep::RemoveFile(directory, name)
        | TreeStep::RemoveDir(directory, name) => (*directory, name.as_bytes()),
    }
}

/// The file or directory that a step makes. For one that makes none it is the root, which no answer
/// names.
pub fn made_in(step: &TreeStep) -> Gfid {
    match step {
        TreeStep::AddFile(_, _, made) | TreeStep::AddDir(_, _, made) => *made,
        TreeStep::RemoveFile(_, _) | TreeStep::RemoveDir(_, _) => Gfid::ROOT,
    }
}

/// What stands at a name of a directory, in the tree after these lines.
pub fn node_at(past: &[Line], directory: Gfid, name: &[u8]) -> Option<Node> {
    let mut found = None;
    for line in past {
        if let Line::Tree(_, step) = line {
            let (at, called) = slot_of(step);
            if at == directory && called == name {
                found = match step {
                    TreeStep::AddFile(_, _, file) => Some(Node::File(*file)),
                    TreeStep::AddDir(_, _, made) => Some(Node::Dir(*made)),
                    TreeStep::RemoveFile(_, _) | TreeStep::RemoveDir(_, _) => None,
                };
            }
        }
    }
    found
}

/// Whether a gfid is a directory of the tree after these lines: the root is, and each that was made
/// is until its name is taken away.
pub fn is_directory(past: &[Line], gfid: Gfid) -> bool {
    let mut is_there = gfid == Gfid::ROOT;
    for (index, line) in past.iter().enumerate() {
        match line {
            Line::Tree(_, TreeStep::AddDir(_, _, made)) if *made == gfid => is_there = true,
            Line::Tree(_, TreeStep::RemoveDir(directory, name)) => {
                let removed = node_at(&past[..index], *directory, name.as_bytes());
                is_there = is_there && removed != Some(Node::Dir(gfid));
            }
            _ => {}
        }
    }
    is_there
}

/// Whether the tree after these lines has the bytes of a file, which it keeps without a name too.
pub fn has_file(past: &[Line], file: Gfid) -> bool {
    let mut found = false;
    for line in past {
        if let Line::Tree(_, TreeStep::AddFile(_, _, made)) = line {
            found = found || *made == file;
        }
    }
    found
}

/// Whether no name stands in a directory of the tree after these lines.
pub fn is_empty(past: &[Line], gfid: Gfid) -> bool {
    let mut found = false;
    for line in past {
        if let Line::Tree(_, step) = line {
            let (directory, name) = slot_of(step);
            found = found || (directory == gfid && node_at(past, gfid, name).is_some());
        }
    }
    !found
}

/// The directory in which a directory stands in the tree after these lines, if it is not the root.
fn above(past: &[Line], gfid: Gfid) -> Option<Gfid> {
    let mut found = None;
    for line in past {
        if let Line::Tree(_, TreeStep::AddDir(directory, _, made)) = line {
            if *made == gfid {
                found = Some(*directory);
            }
        }
    }
    found
}

/// How many names lead to a directory from the root, in the tree after these lines.
pub fn depth(past: &[Line], gfid: Gfid) -> u64 {
    let mut at = gfid;
    let mut names = 0u64;
    for _ in 0..=MOST_NAMES {
        if let Some(directory) = above(past, at) {
            at = directory;
            names = names.saturating_add(1);
        }
    }
    names
}

/// Whether a directory of the tree after these lines may have directories in it.
pub fn is_shallow(past: &[Line], gfid: Gfid) -> bool {
    depth(past, gfid) < MOST_NAMES
}

/// What a lookup is told of a name that stands for this.
fn looked_up<'a>(node: Option<Node>) -> Said<'a> {
    match node {
        None => Said::Refuse(Errno::Enoent),
        Some(Node::File(file)) => Said::Say(Answer::File(file)),
        Some(Node::Dir(dir)) => Said::Say(Answer::Dir(dir)),
    }
}

/// What a call is told that would make this at a name that stands for `node`, by this step.
fn made_at<'a>(node: Option<Node>, step: Told<'a>, made: Gfid) -> Said<'a> {
    match node {
        None => Said::Do(step, Answer::Made(made)),
        Some(_) => Said::Refuse(Errno::Eexist),
    }
}

/// What an unlink is told of a name that stands for this, and that this step would take away.
fn unlinked<'a>(node: Option<Node>, step: Told<'a>) -> Said<'a> {
    match node {
        None => Said::Refuse(Errno::Enoent),
        Some(Node::File(_)) => Said::Do(step, Answer::Done),
        Some(Node::Dir(_)) => Said::Refuse(Errno::Eisdir),
    }
}

/// What an rmdir is told of a name that stands for this, and that this step would take away.
fn removed<'a>(past: &[Line], node: Option<Node>, step: Told<'a>) -> Said<'a> {
    match node {
        None => Said::Refuse(Errno::Enoent),
        Some(Node::File(_)) => Said::Refuse(Errno::Enotdir),
        Some(Node::Dir(dir)) if is_empty(past, dir) => Said::Do(step, Answer::Done),
        Some(Node::Dir(_)) => Said::Refuse(Errno::Enotempty),
    }
}

/// What the tree after these lines says to a call that would make this file or directory.
pub fn says<'a>(past: &[Line], call: &'a Call<Gfid>, made: Gfid) -> Said<'a> {
    let directory = call.directory();
    if !is_directory(past, directory) {
        return Said::Refuse(Errno::Estale);
    }
    let Some(name) = call.name() else {
        return Said::Say(Answer::Done);
    };
    let node = node_at(past, directory, name);
    match call {
        Call::Lookup(_, _) => looked_up(node),
        Call::Create(_, _) => made_at(node, Told::AddFile(directory, name, made), made),
        Call::Mkdir(_, _) if !is_shallow(past, directory) => Said::Refuse(Errno::Enametoolong),
        Call::Mkdir(_, _) => made_at(node, Told::AddDir(directory, name, made), made),
        Call::Unlink(_, _) => unlinked(node, Told::RemoveFile(directory, name)),
        Call::Rmdir(_, _) => removed(past, node, Told::RemoveDir(directory, name)),
        Call::Heal(_) => Said::Say(Answer::Done),
    }
}
