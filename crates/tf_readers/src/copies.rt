//! The two copies of what was published last.
ghost use Rattle.std.specs.Prelude.{◌≡◌, IfErr, IfOk, OnErr, OnOk, vec_len};
ghost use Rattle.std.specs.List.{All};
ghost use Rattle.left_right.specs.Handles.{published};
ghost use Rattle.tf_readers.specs.Reader.{HasSeen};

use crate::publishable::Publishable;
use crate::published::Published;
use crate::reader::Reader;
use left_right::WriteHandle;
use std::alloc::{AllocError, Allocator};
use std::sync::Wait;
use tf_history::HistoryName;
use tf_records::Refusal;

/// The two copies of what was published last. Who owns them alone publishes; a publication, and their drop, wait for
/// readers.
pub type Copies<V, A, S, R> = WriteHandle<Published<V, S>, Published<V, S>, R, A>;

/// Copies that show a page, and as many readers as are asked for, which have seen it.
///
/// [`Refusal::NoMemory`] is the only refusal, and gives everything back. Takes memory for both copies, with a place for each
/// reader, and once for the readers.
pub fn open<V, A, S, R>(
    alloc: A,
    rt: R,
    page: &Published<V, S>,
    readers: u32,
) -> Result<(Copies<V, A, S, R>, Vec<Reader<V, A, S>, A>), Refusal>
where
    V: Publishable + Drop,
    A: Allocator + Copy,
    S: HistoryName,
    R: Wait + Drop,
    ensures shown { IfOk result (λ r. published r.0 ≡ page.now) }
    ensures count { IfOk result (λ r. vec_len r.1 ≡ readers) }
    ensures readers { IfOk result (λ r. All (HasSeen page.now) r.1.items) }
    ensures refusal { IfErr result (λ refusal. refusal ≡ Refusal.NoMemory) }
{
    let copies = WriteHandle::new(
        alloc,
        rt,
        page.again()?,
        page.again()?,
        readers.max(1) as usize,
    )?;
    let readers = readers_of(alloc, &copies, page, readers)?;
    Ok((copies, readers))
}

/// So many readers that have seen a page.
fn readers_of<V, A, S, R>(
    alloc: A,
    copies: &Copies<V, A, S, R>,
    page: &Published<V, S>,
    count: u32,
) -> Result<Vec<Reader<V, A, S>, A>, AllocError>
where
    V: Publishable + Drop,
    A: Allocator + Copy,
    S: HistoryName,
    R: Wait + Drop,
    ensures count { IfOk result (λ readers. vec_len readers ≡ count) }
    ensures seen { IfOk result (λ readers. All (HasSeen page.now) readers.items) }
{
    let mut readers = Vec::with_capacity(alloc, count as usize)?;
    for _ in 0..count {
        readers.push(Reader::new(copies.handle()?, page.again()?))?;
    }
    Ok(readers)
}

/// Publishes a page: readers that enter later see it. It waits for those that still read what was published before the last.
///
/// The other copy owns what was published before this page until the next publication, and what that alone refers to comes
/// back no earlier.
///
/// [`Refusal::NoMemory`] where the copies refuse the publication; nothing was shown then. Takes memory at the first
/// publication alone, and makes one more owner of the page's version.
pub fn show<V, A, S, R>(
    copies: &mut Copies<V, A, S, R>,
    page: Published<V, S>,
) -> Result<(), Refusal>
where
    V: Publishable + Drop,
    A: Allocator,
    S: HistoryName,
    R: Wait + Drop,
    ensures shown { OnOk result (published copies.new ≡ page) }
    ensures refused { OnErr result (published copies.new ≡ published copies.old) }
    ensures refusal { IfErr result (λ refusal. refusal ≡ Refusal.NoMemory) }
{
    if copies.append(page).is_err() {
        return Err(Refusal::NoMemory);
    }
    copies.publish()?;
    Ok(())
}
