//! The sessions of a script, and the answer to each line.

ghost use Rattle.std.specs.Borrow.{sem};
ghost use Rattle.std.specs.Option.{option_copied_mut};
ghost use Rattle.std.specs.Prelude.{◌≡◌, ◌∷◌, ◌++◌, [], None, IfOk, OnOk, OnErr, map, option_copied, option_map, length, slice_get};
ghost use Rattle.tr_command.specs.Language.{asked_of};
ghost use Rattle.tr_console.specs.Lends.{lends_session};
ghost use Rattle.tr_console.specs.Replies.{Does};
ghost use Rattle.tr_console.specs.Script.{asked_step, text_step};
ghost use Rattle.tr_console.specs.World.{no_sessions, session_named};
ghost use Rattle.tr_console.specs.commands.Create.{with_new};
ghost use Rattle.tr_stream.specs.Rules.{by_state};

use crate::replies::{Reply, bad_line, skipped};
use indexmap::IndexMap;
use std::alloc::{AllocError, Allocator, Global};
use std::hash::{BuildHasherDefault, FoldHasher};
use std::marker::Model;
use tr_command::parse;
use tr_events::Events;
use tr_lines::{Words, is_skipped_line, push_words};
use tr_session::Session;
use tr_terms::Name;

/// The sessions of a script by name, in order of creation, and the events that each of them is created with. Contracts see a
/// `World`.
#[derive(Drop)]
pub struct Console<A: Allocator = Global> {
    alloc: A,
    sessions: IndexMap<String<A>, Session<A>, BuildHasherDefault<FoldHasher>, A>,
    events: Events<A>,
}

impl<A: Allocator> Model for Console<A> {
    ghost use Rattle.tr_console.specs.World.{World, world_of};
    ghost use Rattle.tr_session_book.specs.Names.{by_name};
    ghost use Rattle.tr_stream.specs.State.{StreamState};

    ghost Value = { World StreamState };

    ghost view = { λ c. world_of (by_name c.sessions.entries) c.events };

    ghost use Rattle.tr_session_book.specs.Names.{AreNamed};

    ghost invariant = { λ c. AreNamed (by_name c.sessions.entries) };
}

impl<A: Allocator + Copy> Console<A> {
    /// A console without sessions, whose sessions will be created with these events. It takes no memory.
    pub(crate) fn new(alloc: A, events: Events<A>) -> Console<A>
        ensures { result ≡ no_sessions events }
    {
        Console {
            alloc,
            sessions: IndexMap::new(alloc),
            events,
        }
    }

    /// The events that its sessions are created with.
    pub(crate) fn events(&self) -> &Events<A>
        ensures { result.now ≡ self.now.events }
    {
        &self.events
    }

    /// Answers a line; `None` is a bad one. The words of the line are read with memory of `clap`.
    ///
    /// If an allocation fails, the line may have been done, or not, without its answer: the console must then be dropped.
    pub(crate) fn answer(
        &mut self,
        clap: Global,
        line: Option<&str>,
    ) -> Result<Reply<A>, AllocError>
        ensures { IfOk result (Does (text_step by_state self.old (option_map (λ t. t.now) line.entry)) self.new) }
    {
        let Some(text) = line else {
            return Ok(bad_line());
        };
        if is_skipped_line(text) {
            return Ok(skipped());
        }
        let mut words = Words::new(clap);
        words.push("tracerd")?;
        push_words(&mut words, text)?;
        self.answer_words(clap, words.as_slice())
    }

    /// Answers the words of a command, with the program's name before them.
    fn answer_words<'a>(
        &mut self,
        clap: Global,
        words: &'a [&'a str],
    ) -> Result<Reply<A>, AllocError>
        ensures { IfOk result (Does (asked_step by_state self.old (asked_of (map (λ w. w.now) words.entry.now)))
            self.new) }
    {
        match parse(clap, words)? {
            Some(request) => self.answer_request(request),
            None => Ok(bad_line()),
        }
    }

    /// Where answers and sessions take their memory from.
    pub(crate) fn alloc(&self) -> A {
        self.alloc
    }

    /// Adds a session of a name of its own after the others.
    ///
    /// # Errors
    ///
    /// An allocation failed: nothing changed.
    pub(crate) fn add(&mut self, name: &Name<'_>, session: Session<A>) -> Result<(), AllocError>
        requires { session_named name.now self.old ≡ None }
        ensures ok { OnOk result (self.new ≡ with_new name.now session self.old) }
        ensures err { OnErr result (self.new ≡ self.old) }
    {
        let name = String::from_str(self.alloc, name.as_str())?;
        self.sessions.insert(name, session)?;
        Ok(())
    }
}

impl<A: Allocator> Console<A> {
    /// How many sessions there are.
    pub fn sessions(&self) -> usize
        ensures { result ≡ length self.now.sessions }
    {
        self.sessions.len()
    }

    /// The session number `k` in the order of creation, counted from 0, with its name. None if there are fewer.
    pub fn session(&self, k: usize) -> Option<(Name<'_>, &Session<A>)>
        ensures { option_map (λ e. (e.0, e.1.now)) result ≡ slice_get self.now.sessions k }
    {
        let Some((text, session)) = self.sessions.get_index(k) else {
            return None;
        };
        let Some(name) = Name::new(text.as_str()) else {
            unreachable!()
        };
        Some((name, session))
    }

    /// The session of this name.
    pub(crate) fn find(&self, name: &str) -> Option<&Session<A>>
        ensures { option_copied result ≡ session_named name.now self.now }
    {
        self.sessions.get(name)
    }

    /// The session of this name, to be changed: the others stay as they are.
    pub(crate) fn find_mut(&mut self, name: &str) -> Option<&mut Session<A>>
        ensures* lends { sem 𝓛 (lends_session A.row A.Allocator self.entry name.now result) }
        ensures found { option_copied_mut result ≡ session_named name.now self.old }
    {
        self.sessions.get_mut(name)
    }
}
