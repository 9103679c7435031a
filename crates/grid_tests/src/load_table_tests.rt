//! Shares of one table of `load_table`, in one thread and in two.

ghost use Rattle.std.specs.Prelude.{◌≡◌, ◌<◌, ◌≤◌, IfOk, replicate};

use load_table::{LoadTable, Share};
use std::alloc::{AllocError, Global};
use std::test::Fail;
use std::thread::join;

#[test]
fn a_share_finds_what_another_added(rt: HostRuntime) -> Result<(), Fail> {
    let (table, mut share) = LoadTable::open(rt.alloc(), 1)?;
    let mut other = share.split(&table, 1 << 61, &[0])?;
    other.add(&table, 0, 5);
    let apart = (share.load(&table, 0), share.last_of(0), share.share_of(0));
    share.join(&table, other);
    let joined = (share.load(&table, 0), share.share_of(0), share.allotment());
    assert!(rt; (apart, joined) == ((5, 5, 0), (5, 5, 1u64 << 62)));
    Ok(())
}

/// Adds an amount to a word, where the allotment has room for it.
fn put(share: &mut Share, table: &LoadTable, word: u32, amount: u64)
    requires table { share.old.table ≡ table.now }
    requires word { word < table.now.words }
    ensures table { share.new.table ≡ share.old.table }
{
    if amount <= share.allotment() && share.share_of(word) <= share.allotment() - amount {
        share.add(table, word, amount);
    }
}

/// Where a run of loads begins to tell of changes, and where it ends.
fn run(share: &mut Share, table: &LoadTable, first: u32, end: u32) -> (u32, u32)
    requires table { share.old.table ≡ table.now }
    requires words { (first < end) × (end ≤ table.now.words) }
    ensures table { share.new.table ≡ share.old.table }
{
    let found = share.reload(table, first, end);
    (found.since, found.next)
}

#[test]
fn a_run_of_loads_ends_behind_a_block_with_a_word_that_changed(
    rt: HostRuntime,
) -> Result<(), Fail> {
    let (table, mut share) = LoadTable::open(rt.alloc(), 30)?;
    put(&mut share, &table, 2, 4_294_967_294);
    put(&mut share, &table, 12, 4_294_967_295);
    let first = (
        run(&mut share, &table, 0, 30),
        run(&mut share, &table, 8, 30),
        run(&mut share, &table, 16, 30),
    );
    let same = (
        run(&mut share, &table, 0, 8),
        run(&mut share, &table, 1, 12),
    );
    put(&mut share, &table, 12, 1);
    let then = (run(&mut share, &table, 5, 30), share.last_of(12));
    let found = (share.last_of(1), share.last_of(2), share.last_of(3));
    assert!(rt; (first, same) == (((0, 8), (8, 16), (24, 30)), ((8, 8), (9, 12))));
    assert!(rt; (then, found) == (((5, 13), 4_294_967_296), (0, 4_294_967_294, 0)));
    Ok(())
}

#[test]
fn what_was_found_last_may_be_above_32_bits_and_below_again(rt: HostRuntime) -> Result<(), Fail> {
    let (table, mut share) = LoadTable::open(rt.alloc(), 20)?;
    put(&mut share, &table, 13, 1 << 40);
    let above = share.load(&table, 13);
    put(&mut share, &table, 11, 1 << 33);
    // a long value counts as one that changed
    let before = (
        run(&mut share, &table, 0, 20),
        run(&mut share, &table, 0, 20),
    );
    let both = (share.last_of(11), share.last_of(13));
    if share.share_of(13) >= 1 << 40 {
        share.sub(&table, 13, (1 << 40) - 5);
    }
    if share.share_of(11) >= 1 << 33 {
        share.sub(&table, 11, 1 << 33);
    }
    let again = (
        run(&mut share, &table, 0, 20),
        run(&mut share, &table, 0, 20),
    );
    let last = (share.last_of(0), share.last_of(11), share.last_of(13));
    assert!(rt; (above, before, both) == (1 << 40, ((8, 16), (8, 16)), (1 << 33, 1 << 40)));
    assert!(rt; (again, last) == (((8, 16), (16, 20)), (0, 0, 5)));
    Ok(())
}

/// Adds `amount` to the two words a thousand times, loads each, and takes 1 from the second word again.
fn work(mut share: Share, table: &LoadTable, amount: u64) -> Share
    requires table { share.table ≡ table.now }
    requires words { 1 < table.now.words }
    ensures table { result.table ≡ table.now }
{
    for _ in 0..1000 {
        for word in 0..2 {
            put(&mut share, table, word, amount);
            share.load(table, word);
        }
        if share.share_of(1) > 0 {
            share.sub(table, 1, 1);
        }
    }
    share
}

#[test]
fn two_threads_at_once_leave_the_sums(rt: HostRuntime) -> Result<(), Fail> {
    let (table, mut share) = LoadTable::open(rt.alloc(), 2)?;
    share.add(&table, 0, 7);
    let other = share.split(&table, 1 << 61, &[3, 0])?;
    let (mut share, other) = join(
        &rt,
        || -> Share
            requires { (share.table ≡ table) × (1 < table.words) }
            ensures { result.table ≡ table }
        { work(share, &table, 3) },
        || -> Share
            requires { (other.table ≡ table) × (1 < table.words) }
            ensures { result.table ≡ table }
        { work(other, &table, 4) },
    );
    let apart = (share.share_of(0), other.share_of(0));
    share.join(&table, other);
    let words = (share.load(&table, 0), share.load(&table, 1));
    let joined = (share.share_of(0), share.share_of(1), share.allotment());
    let wanted = ((3004, 4003), (7007, 5000), (7007, 5000, 1u64 << 62));
    assert!(rt; (apart, words, joined) == wanted);
    Ok(())
}

fn zeros(alloc: Global, count: usize) -> Result<Vec<u64>, AllocError>
    ensures { IfOk result (λ zeros. zeros.items ≡ replicate count 0) }
{
    vec![in alloc; 0u64; count]
}

#[test]
fn thousands_of_words_are_split_and_joined(rt: HostRuntime) -> Result<(), Fail> {
    let alloc = rt.alloc();
    let (table, mut share) = LoadTable::open(alloc, 5000)?;
    let given = zeros(alloc, 5000)?;
    let mut other = share.split(&table, 1 << 61, &given)?;
    other.add(&table, 4999, 5);
    share.join(&table, other);
    assert!(rt; (share.load(&table, 4999), share.share_of(4999)) == (5, 5));
    Ok(())
}
