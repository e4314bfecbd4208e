//! The lines of a script.

use crate::bench::Bench;
use crate::fault::Fault;
use std::alloc::{AllocError, Global};

/// Lines that lead to a state, and its word.
#[derive(Drop)]
struct Scene {
    word: String,
    lines: String,
}

/// What a script has made so far.
#[derive(Drop)]
pub(crate) struct Script {
    alloc: Global,
    /// The line that made what is tried.
    setting: String,
    /// What is tried, if there is something yet.
    bench: Option<Bench>,
    scenes: Vec<Scene>,
}

impl Script {
    /// Nothing yet.
    pub(crate) fn new(alloc: Global) -> Script {
        Script {
            alloc,
            setting: String::new(alloc),
            bench: None,
            scenes: Vec::new(alloc),
        }
    }

    /// A line with its answer. One that is empty or begins with `#` is a remark, and has none.
    pub(crate) fn answered(&mut self, line: &str) -> Result<String, AllocError> {
        let mut out = String::from_str(self.alloc, line)?;
        if line.is_empty() || line.starts_with('#') {
            return Ok(out);
        }
        let mut answer = String::new(self.alloc);
        match self.obey(line, &mut answer) {
            Ok(()) => {}
            Err(Fault::Unreadable) => answer.push_str("?")?,
            Err(Fault::OutOfMemory) => return Err(AllocError),
        }
        let is_below = answer.is_empty() || answer.starts_with('\n');
        out.push_str(if is_below { " =>" } else { " => " })?;
        out.push_str(answer.as_str())?;
        Ok(out)
    }

    /// Carries out a line, and tells the answer.
    fn obey(&mut self, line: &str, out: &mut String) -> Result<(), Fault> {
        let (first, rest) = line.split_once(' ').unwrap_or((line, ""));
        match first {
            "brick" | "parts" => {
                self.setting = String::from_str(self.alloc, line)?;
                self.scenes.clear();
                self.bench = Some(Bench::new(self.alloc, line)?);
                Ok(out.push_str("ok")?)
            }
            "scene" => self.keep_scene(rest, out),
            "with" => self.try_with(rest, out),
            _ => match &mut self.bench {
                None => Err(Fault::Unreadable),
                Some(bench) => bench.obey(line, out),
            },
        }
    }

    /// Keeps a scene `WORD = LINE; LINE`.
    fn keep_scene(&mut self, scene: &str, out: &mut String) -> Result<(), Fault> {
        let (word, lines) = scene.split_once(" = ").ok_or(Fault::Unreadable)?;
        self.scenes.push(Scene {
            word: String::from_str(self.alloc, word)?,
            lines: String::from_str(self.alloc, lines)?,
        })?;
        Ok(out.push_str("ok")?)
    }

    /// Makes anew what is tried, leads it through scenes `WORD WORD: LINE`, carries the line out,
    /// and tells the answer and which lines of the dump went and came.
    fn try_with(&mut self, trial: &str, out: &mut String) -> Result<(), Fault> {
        let (words, line) = trial.split_once(": ").ok_or(Fault::Unreadable)?;
        self.bench = Some(Bench::new(self.alloc, self.setting.as_str())?);
        let Some(bench) = &mut self.bench else {
            return Err(Fault::Unreadable);
        };
        for word in words.split(' ') {
            enter(self.alloc, self.scenes.as_slice(), word, bench)?;
        }
        bench.change(line, out)
    }
}

/// Leads what is tried through the scene of a word. Each of its lines has to be answered by `ok`.
fn enter(alloc: Global, scenes: &[Scene], word: &str, bench: &mut Bench) -> Result<(), Fault> {
    let scene = scenes.iter().find(|scene| scene.word.as_str() == word);
    for line in scene.ok_or(Fault::Unreadable)?.lines.split("; ") {
        let mut answer = String::new(alloc);
        bench.obey(line, &mut answer)?;
        if !answer.starts_with("ok") {
            return Err(Fault::Unreadable);
        }
    }
    Ok(())
}
