//! The runs of a node: edits that take no memory.
ghost use Rattle.std.specs.Prelude.{◌≡◌, ◌+◌, ◌-◌, ◌<◌, ◌≤◌, [], ◌∷◌, ◌++◌, length, insert, take, drop, vec_len, vec_capacity};

use std::alloc::Allocator;

/// Puts `element` at `at`, where there is room.
pub(super) fn put<T: Drop, A: Allocator>(run: &mut Vec<T, A>, at: usize, element: T)
    requires in_bounds { at ≤ length run.old.items }
    requires room { length run.old.items < vec_capacity run.old }
    ensures items { run.new.items ≡ insert run.old.items at element }
    ensures capacity { vec_capacity run.new ≡ vec_capacity run.old }
{
    let _ = run.insert(at, element);
}

/// Moves the elements from `at` on to `to`, which is empty and has room for them.
pub(super) fn copy_tail<T: Copy, A: Allocator>(from: &mut Vec<T, A>, at: usize, to: &mut Vec<T, A>)
    requires in_bounds { at ≤ length from.old.items }
    requires empty { to.old.items ≡ [] }
    requires room { length from.old.items ≤ vec_capacity to.old + at }
    ensures front { from.new.items ≡ take at from.old.items }
    ensures back { to.new.items ≡ drop at from.old.items }
    ensures capacity { vec_capacity from.new ≡ vec_capacity from.old }
    ensures to_capacity { vec_capacity to.old ≤ vec_capacity to.new }
{
    let _ = to.extend_from_slice(&from[at..]);
    from.truncate(at);
}

/// Moves the elements from `at` on to `to`, which is empty and has room for them, one by one.
pub(super) fn move_tail<T: Drop, A: Allocator>(from: &mut Vec<T, A>, at: usize, to: &mut Vec<T, A>)
    requires in_bounds { at ≤ length from.old.items }
    requires empty { to.old.items ≡ [] }
    requires room { length from.old.items ≤ vec_capacity to.old + at }
    ensures front { from.new.items ≡ take at from.old.items }
    ensures back { to.new.items ≡ drop at from.old.items }
    ensures capacity { vec_capacity from.new ≡ vec_capacity from.old }
    ensures to_capacity { vec_capacity to.old ≤ vec_capacity to.new }
{
    while from.len() > at {
        let last = from.take_last();
        let _ = to.insert(0, last);
    }
}

/// Moves the elements of `from` to the end of `to`, which has room for them.
pub(super) fn move_all<T: Drop, A: Allocator>(from: &mut Vec<T, A>, to: &mut Vec<T, A>)
    requires room { length to.old.items + length from.old.items ≤ vec_capacity to.old }
    ensures all { to.new.items ≡ to.old.items ++ from.old.items }
    ensures none { from.new.items ≡ [] }
    ensures capacity { vec_capacity from.new ≡ vec_capacity from.old }
    ensures to_capacity { vec_capacity to.old ≤ vec_capacity to.new }
{
    let _ = to.append(from);
}
