//! Calls on resources and a broker that no script can make.
use broker::{Broker, Draft};
use claims::{ClaimKey, Demand, Fault, ItemNumber, Party, PromiseNumber};
use compound::{Bank, Quota};
use goods::{Named, Pool};
use resource::Resource;
use std::alloc::AllocError;
use std::io;

fn some(shelf: u32, first: u32) -> Demand {
    Demand {
        shelf,
        first,
        second: 0,
    }
}

// The number of a fault, and 0 where there is none.
// A number and no Option, since it is printed.
fn told<T: Drop>(res: Result<T, Fault>) -> u8 {
    res.err().map_or(0, |fault| fault.cause.number())
}

// The refusals of any resource that reads this demand; it may be of any kind, so that each call has to go at a `dyn`.
fn try_refusals(
    rt: &HostRuntime,
    name: &str,
    goods: &mut dyn Resource,
    demand: Demand,
) -> io::Result<()> {
    let stranger = told(goods.place(ClaimKey(1), Party(33), demand));
    let unread = told(goods.place(ClaimKey(1), Party(1), some(9, 1)));
    let placed = told(goods.place(ClaimKey(1), Party(1), demand));
    let again = told(goods.place(ClaimKey(1), Party(2), demand));
    let short = told(goods.place(ClaimKey(2), Party(2), demand));
    let drawn = told(goods.draw(ClaimKey(1)));
    let twice = told(goods.draw(ClaimKey(1)));
    let missing = told(goods.draw(ClaimKey(2)));
    println!(rt;
        "{name}: {stranger} {unread} {placed} {again} {short}, drawn {drawn} {twice} {missing}"
    )?;
    let lifted = told(goods.lift(ClaimKey(1)));
    let gone = told(goods.lift(ClaimKey(1)));
    let wrong = told(goods.seat(ClaimKey(3), Party(1), demand, ItemNumber(9)));
    let count = goods.count();
    println!(rt; "{name}: lifted {lifted} {gone}, seated with a wrong unit {wrong}, claims {count}")
}

// As many claims as a book may have, and one more.
fn try_crowd(rt: &HostRuntime) -> io::Result<()> {
    let mut pool = Pool::new(rt.alloc(), 1, 60001)?;
    let mut last = 0;
    // the numbers are the keys
    for key in 0..257u64 {
        last = told(pool.place(ClaimKey(key), Party(1), some(1, 1)));
    }
    let count = pool.count();
    let units = pool.party_units(Party(1));
    println!(rt; "257 claims on a pool: {last}, claims {count}, units {units}")
}

// What is made over claims reads nothing, and promises nothing.
fn try_closed(rt: &HostRuntime) -> io::Result<()> {
    let mut pool = Pool::new(rt.alloc(), 1, 6)?;
    let placed = told(pool.place(ClaimKey(4), Party(1), some(1, 1)));
    let mut quota = Quota::new(pool, [8; 32]);
    let read = quota.reads(some(1, 1));
    let count = quota.count();
    let refused = told(quota.place(ClaimKey(5), Party(1), some(1, 1)));
    println!(rt;
        "a quota over a claim: placed {placed}, reads {read}, claims {count}, refuses {refused}"
    )
}

// A broker over a pool that has a claim already: its numbers are spent.
fn try_spent(rt: &HostRuntime) -> io::Result<()> {
    let mut pool = Pool::new(rt.alloc(), 1, 6)?;
    // a claim that the pool has room for, so that nothing is refused
    let _ = pool.place(ClaimKey(4), Party(1), some(1, 1));
    let mut broker = Broker::new(rt.alloc(), pool, PromiseNumber(1)).map_err(AllocError::from)?;
    let mut draft = Draft::new();
    // a draft's first demand, which is taken in
    let _ = draft.push(some(1, 1));
    match broker.ask(0, Party(1), 10, draft) {
        Ok(_) => println!(rt; "a broker over a claim: granted"),
        Err(refusal) => println!(rt; "a broker over a claim: {}", refusal.number()),
    }
}

// A draft's fifth demand.
fn try_draft(rt: &HostRuntime) -> io::Result<()> {
    let mut draft = Draft::new();
    let mut fifth = 0;
    // a range that says how often
    for _ in 0..5 {
        fifth = draft
            .push(some(1, 1))
            .err()
            .map_or(0, |refusal| refusal.number());
    }
    let count = draft.len();
    println!(rt; "a fifth demand: {fifth}, the draft has {count}")
}

// Where a bank splits, and what counts on each side.
fn try_bank(rt: &HostRuntime) -> io::Result<()> {
    let pool = Pool::new(rt.alloc(), 1, 1)?;
    let named = Named::new(rt.alloc(), 2, 257)?;
    let mut bank = Bank::new(pool, named, 1);
    let last = told(bank.place(ClaimKey(1), Party(1), some(2, 256)));
    let above = told(bank.place(ClaimKey(2), Party(1), some(2, 257)));
    let units = bank.party_units(Party(1));
    println!(rt; "a bank: item 256 {last}, item 257 {above}, units {units}")?;
    try_refusals(rt, "bank", &mut bank, some(1, 1))
}

pub(crate) fn try_calls(rt: &HostRuntime) -> io::Result<()> {
    let mut pool = Pool::new(rt.alloc(), 1, 1)?;
    try_refusals(rt, "pool", &mut pool, some(1, 1))?;
    let mut named = Named::new(rt.alloc(), 2, 4)?;
    try_refusals(rt, "named", &mut named, some(2, 4))?;
    let below = Pool::new(rt.alloc(), 1, 6)?;
    let mut quota = Quota::new(below, [1; 32]);
    try_refusals(rt, "quota", &mut quota, some(1, 1))?;
    try_bank(rt)?;
    try_crowd(rt)?;
    try_closed(rt)?;
    try_spent(rt)?;
    try_draft(rt)
}
