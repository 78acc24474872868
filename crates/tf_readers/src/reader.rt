//! Readers.
ghost use Rattle.std.specs.Prelude.{◌≡◌, ◌<◌, Ok, true, false, length, take, IfNone, IfOk, IfSome};
ghost use mathlib.Core.List.{IsPrefix};
ghost use Rattle.tf_history.specs.Beginning.{OneBegins, longer};
ghost use Rattle.tf_journal.specs.Lawful.{IsLawful};
ghost use Rattle.tf_readers.specs.Reader.{HasSeen};

use crate::publishable::{Publishable, again};
use crate::published::Published;
use left_right::ReadHandle;
use std::alloc::{AllocError, Allocator};
use std::marker::Model;
use tf_history::{Beginning, Front, HistoryName};

/// Who reads what is published, without a lock. Contracts see the journal that it has seen, and that of the version which it
/// holds.
///
/// Its calls take no memory and wait for nobody. What it has seen only grows. The version that it holds is its own, and may be
/// read while others are published. Who drops the last owner of a version gives back what it alone referred to, so a call that
/// lets a version go may free memory.
#[derive(Drop)]
pub struct Reader<V: Publishable + Drop, A: Allocator, S: HistoryName> {
    copies: ReadHandle<Published<V, S>, A>,
    known: Beginning<S>,
    page: Published<V, S>,
}

impl<V: Publishable + Drop, A: Allocator, S: HistoryName> Model for Reader<V, A, S> {
    ghost use Rattle.tf_readers.specs.Reader.{ReaderView};

    ghost Value = { ReaderView };

    ghost view = { λ r. record { seen = r.known; held = r.page } };
}

impl<V: Publishable + Drop, A: Allocator, S: HistoryName> Reader<V, A, S> {
    /// A reader of copies, which has seen a page.
    pub(crate) fn new(
        copies: ReadHandle<Published<V, S>, A>,
        page: Published<V, S>,
    ) -> Reader<V, A, S>
        ensures { HasSeen page result }
    {
        Reader {
            copies,
            known: Beginning::new(page.front(), page.front().len()),
            page,
        }
    }

    /// The version that was published last, no older than all that this reader has seen, which it then has seen too.
    ///
    /// None where the copies are gone, or what they show is older than what was learned, or the version has 2^63 - 1 owners;
    /// all is then as before. Takes an entry of a copy, and makes one more owner of the version.
    pub fn latest(&mut self) -> Option<V>
        ensures lawful { IfSome result (λ version. IsLawful (V.journal version)) }
        ensures later { IfSome result (λ version. IsPrefix self.old.seen (V.journal version)) }
        ensures seen { IfSome result (λ version. self.new.seen ≡ V.journal version) }
        ensures held { self.new.held ≡ self.old.held }
        ensures none { IfNone result (self.new ≡ self.old) }
    {
        entered_version(&mut self.copies, &mut self.known)
    }

    /// Brings the version that this reader holds up to date. It is then the one that was published last, no older than all that
    /// this reader has seen, which it then has seen too. What it held before is let go.
    ///
    /// False where `latest` would give none; all is then as before. Takes an entry of a copy, and makes one more owner of the
    /// version.
    pub fn follow(&mut self) -> bool
        ensures later { result ≡ true → IsPrefix self.old.seen self.new.held }
        ensures seen { result ≡ true → self.new.seen ≡ self.new.held }
        ensures none { result ≡ false → self.new ≡ self.old }
    {
        let Some(page) = entered_page(&mut self.copies, &mut self.known) else {
            return false;
        };
        self.page = page;
        true
    }

    /// The version that this reader holds: that of its last `follow`, or of its start. It enters no copy.
    pub fn held(&self) -> &V
        ensures version { V.journal result.now ≡ self.now.held }
        ensures lawful { IsLawful self.now.held }
    {
        let _length = self.page.front().len();
        self.page.version()
    }

    /// Learns that the first `count` entries of a front were published, all where it has fewer: what was seen is then the
    /// longer of both.
    pub fn learn(&mut self, front: &Front<S>, count: u64)
        ensures seen { self.new.seen ≡ longer self.old.seen (take count front.now) }
        ensures one { OneBegins self.old.seen (take count front.now) }
        ensures held { self.new.held ≡ self.old.held }
    {
        self.known.learn(front, count);
    }
}

/// The version of the page that is entered, unless that is older than what is known. What a reader holds isn't seen here.
fn entered_version<V: Publishable + Drop, A: Allocator, S: HistoryName>(
    copies: &mut ReadHandle<Published<V, S>, A>,
    known: &mut Beginning<S>,
) -> Option<V>
    ensures lawful { IfSome result (λ version. IsLawful (V.journal version)) }
    ensures given { IfSome result (λ version. (known.new ≡ V.journal version) × IsPrefix known.old known.new) }
    ensures none { IfNone result (known.new ≡ known.old) }
{
    let page = copies.enter()?;
    // Only the length of a front tells that its journal is lawful.
    let _length = page.front().len();
    accepted(known, page.front(), again(page.version()))
}

/// The page that is entered, unless that is older than what is known. What a reader holds isn't seen here.
fn entered_page<V: Publishable + Drop, A: Allocator, S: HistoryName>(
    copies: &mut ReadHandle<Published<V, S>, A>,
    known: &mut Beginning<S>,
) -> Option<Published<V, S>>
    ensures given { IfSome result (λ page. (known.new ≡ page) × IsPrefix known.old known.new) }
    ensures none { IfNone result (known.new ≡ known.old) }
{
    let page = copies.enter()?;
    accepted(known, page.front(), page.again())
}

/// A copy of what is shown at a front, which is known then. None, and nothing is changed, where there is no copy, or more is known
/// than the front has, and only there.
fn accepted<P: Drop, S: HistoryName>(
    known: &mut Beginning<S>,
    front: &Front<S>,
    copy: Result<P, AllocError>,
) -> Option<P>
    ensures given { IfSome result (λ given. (copy ≡ Ok given) × (known.new ≡ front.now) × IsPrefix known.old front.now) }
    ensures same { IfNone result (known.new ≡ known.old) }
    ensures none { IfNone result (IfOk copy (λ given. length front.now < length known.old)) }
{
    let Ok(copy) = copy else {
        return None;
    };
    if !known.reach(front) {
        return None;
    }
    Some(copy)
}
