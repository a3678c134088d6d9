//! The history that is published.
ghost use Rattle.std.specs.Prelude.{◌≡◌, ◌≢◌, ◌++◌, ◌∷◌, ◌-◌, ◌^◌, [], None, drop, IfErr, IfOk, IsErr, ◌<◌, length, true, false};
ghost use Rattle.df_state.specs.Pictures.{picture_of};
ghost use Rattle.left_right.specs.Sides.{view};
ghost use Rattle.df_versions.specs.Histories.{AreAllowed, IsHistory, IsHistoryOver, MayFollow, MayFollowBy};
ghost use Rattle.df_versions.specs.HistoryRule.{head_of};
ghost use Rattle.df_versions.specs.Newest.{newest};
ghost use Rattle.df_versions.specs.declared.fault.PublishFault.TheVariants as publish_fault;

use crate::fault::PublishFault;
use crate::history::{Head, History, Naming};
use crate::told::Told;
use crate::version::{Published, Sees, Version, VersionWriter};
use core::mem::replace_with;
use df_state::{Picture, State};
use logbook::Plain;
use std::alloc::Global;
use std::marker::{Model, PhantomData};
use std::sync::{Arc, Wait};

// Makes the version ready to be published. The opening made room for it, so that no growth is refused here; a proof does
// not know it, and so it is asked for again.
fn put<R: Wait>(rt: &R, writer: &mut VersionWriter, published: Published)
    ensures desk { writer.new.desk ≡ writer.old.desk }
    ensures pending { drop writer.new.behind writer.new.log.items
        ≡ drop writer.old.behind writer.old.log.items ++ published ∷ [] }
{
    let mut next = published;
    for _ in rt.forever() {
        match writer.append(next) {
            Ok(()) => return,
            Err(back) => next = back,
        }
    }
    unreachable!()
}

// Publishes all that is ready. A publish is refused only where a version has more owners than an `Arc` counts, and is
// tried again.
pub(crate) fn show<R: Wait>(writer: VersionWriter, rt: &R) -> (VersionWriter, ())
    requires { (newest writer.desk.shown.value.history (drop writer.behind writer.log.items)).0
        ≡ writer.desk.shown.value.history.0 }
    ensures shown { result.0.desk.shown.value.history
        ≡ newest writer.desk.shown.value.history (drop writer.behind writer.log.items) }
    ensures known { (view result.0.desk.place).known ≡ result.0.desk.shown.value.history ∷ [] }
{
    let mut writer = writer;
    for _ in rt.forever() {
        let (next, done) = writer.publish_as::<Sees, R>(rt);
        writer = next;
        if done.is_ok() {
            return (writer, ());
        }
    }
    unreachable!()
}

/// What publishes the versions of a catalogue. Contracts see the history so far.
pub struct Publisher<J: Naming> {
    head: Head,
    history: History,
    writer: VersionWriter,
    of: PhantomData<J>,
}

impl<J: Naming> Model for Publisher<J> {
    ghost use Rattle.std.specs.Prelude.{◌≡◌, List};
    ghost use Rattle.std.specs.Coded.{coded_list};
    ghost use Rattle.df_state.specs.declared.state.State.{State};
    ghost use Rattle.df_state.specs.contracts.state.State as state_type;
    ghost use Rattle.df_versions.specs.Histories.{AreAllowed, IsHistoryOver};
    ghost use Rattle.df_versions.specs.HistoryRule.{head_of};

    ghost Value = { List State };

    ghost coded = { coded_list state_type.the_row.coded };

    ghost view = { λ p. p.history.1 };

    // The history is that of this name, the newest version that is published ends it, and its name allows each change in it.
    ghost invariant = { λ p. (p.history.0 ≡ J.book) × (p.head ≡ head_of J.book)
        × (p.writer.desk.shown.value.history ≡ p.history) × IsHistoryOver J.schemas p.history.1
        × AreAllowed J.allows p.history.1 };
}

impl<J: Naming> Publisher<J> {
    pub(crate) fn over(head: Head, history: History, writer: VersionWriter) -> Publisher<J>
        requires book { history.0 ≡ J.book }
        requires head { head ≡ head_of history.0 }
        requires over { IsHistoryOver J.schemas history.1 }
        requires allowed { AreAllowed J.allows history.1 }
        requires shown { writer.desk.shown.value.history ≡ history }
        ensures { result ≡ history.1 }
    {
        Publisher {
            head,
            history,
            writer,
            of: PhantomData,
        }
    }

    /// Waits until no reader is inside a step, and ends: readers get no version from then on.
    pub fn end<R: Wait>(self, rt: &R)
        ensures over { IsHistoryOver J.schemas self }
        ensures allowed { AreAllowed J.allows self }
    {
        let Publisher {
            head: _,
            history: _,
            writer,
            of: _,
        } = self;
        drop(writer.take(rt));
    }

    /// How many states the history has.
    pub fn len(&self) -> u64
        ensures length { result ≡ length self.now }
        ensures over { IsHistoryOver J.schemas self.now }
        ensures allowed { AreAllowed J.allows self.now }
    {
        self.history.len()
    }

    /// The history so far.
    pub fn told(&self) -> Told<J>
        ensures told { result ≡ self.now }
        ensures over { IsHistoryOver J.schemas self.now }
    {
        Told::of(self.history.again())
    }

    /// Whether nothing was published since this was told.
    #[tactic(auto, using(crate::proofs::Prefixes::prefix_both))]
    pub fn is_last(&self, told: &Told<J>) -> bool
        ensures last { result ≡ true → told.now ≡ self.now }
        ensures later { result ≡ false → told.now ≢ self.now }
    {
        let told = told.history();
        told.begins(&self.history) && self.history.begins(told)
    }

    /// Adds the state that M asks for, which an allowed change makes, and publishes the version with its picture.
    pub fn publish<X, M: Plain<X, State, u64>, R: Wait>(
        &mut self,
        rt: &R,
        alloc: Global,
        about: &X,
        picture: Picture,
    ) -> Result<Told<J>, PublishFault>
        requires plain { M.state about.now ≡ None }
        requires next { MayFollowBy J.allows self.old (M.ask about.now) }
        requires picture { picture ≡ picture_of (M.ask about.now) }
        ensures added { IfOk result (λ t. t ≡ self.old ++ M.ask about.now ∷ []) }
        ensures published { IfOk result (λ t. self.new ≡ t) }
        ensures lawful { IfOk result (λ t. IsHistory t) }
        ensures same { IsErr result → self.new ≡ self.old }
        ensures spent { IfErr result (λ fault. fault ≡ publish_fault.Spent → length self.old ≡ 2 ^ 64 - 1) }
    {
        let number = self.history.len();
        if number == u64::MAX {
            return Err(PublishFault::Spent);
        }
        let Ok(version) = Arc::new(alloc, Version::new(number, picture)) else {
            return Err(PublishFault::Memory);
        };
        let history = extended::<X, M, R>(rt, &self.history, &self.head, about);
        let told = history.again();
        put(
            rt,
            &mut self.writer,
            Published {
                version,
                history: history.again(),
            },
        );
        replace_with(&mut self.writer, rt, show);
        self.history = history;
        Ok(Told::of(told))
    }
}

// The history with the state that M asks for. Nobody else has the head, so that the history has not gone on; a proof
// knows only that it may have, and there this does not return.
pub(crate) fn extended<X, M: Plain<X, State, u64>, R: Wait>(
    rt: &R,
    history: &History,
    head: &Head,
    about: &X,
) -> History
    requires head { head.now ≡ head_of history.now.0 }
    requires room { length history.now.1 < 2 ^ 64 - 1 }
    requires plain { M.state about.now ≡ None }
    requires lawful { MayFollow history.now.1 (M.ask about.now) }
    ensures { result ≡ (history.now.0, history.now.1 ++ M.ask about.now ∷ []) }
{
    for _ in rt.forever() {
        let mut longer = history.again();
        if longer.extend::<X, M>(head, about) {
            return longer;
        }
    }
    unreachable!()
}
