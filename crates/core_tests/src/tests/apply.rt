//! A move of a registry in memory from one worked chain to another.

use super::asserts::assert_told;
use super::bodies::{FIRST, RESENT, SECOND, THIRD};
use esc_apply::{MemRegistry, Registry, Step, Work, common_front, move_chain};
use esc_bundle::{Fault, NoMemory};
use esc_envelope::Kind;
use esc_tables::{Deposit, Key, read_deposit};
use std::alloc::Global;

fn deposits_of(alloc: Global, chain: &[&str]) -> Result<Vec<Deposit>, Fault> {
    let mut deposits = Vec::new(alloc);
    for body in chain {
        deposits.push(read_deposit(alloc, body.as_bytes())?)?;
    }
    Ok(deposits)
}

fn steps_of(alloc: Global, deposits: &[Deposit]) -> Result<Vec<Step>, NoMemory> {
    let mut steps = Vec::new(alloc);
    for deposit in deposits {
        let header = &deposit.header;
        steps.push(Step {
            row: 0,
            place: header.place,
            resend: header.resend,
        })?;
    }
    Ok(steps)
}

// A move between the chains of these steps, whose lengths are tested. `deposits` are those of the
// new steps.
fn move_along(
    alloc: Global,
    registry: &mut MemRegistry,
    old: &[Step],
    new: &[Step],
    deposits: &[Deposit],
) -> Result<Work, NoMemory> {
    let front = common_front(old, new);
    let late = deposits.get(front..).unwrap_or(&[]);
    if old.len() > 4096 || new.len() > 4096 || new.len().checked_sub(front) != Some(late.len()) {
        return Err(NoMemory);
    }
    move_chain(alloc, registry, old, new, late)
}

fn go(
    alloc: Global,
    registry: &mut MemRegistry,
    old: &[Deposit],
    new: &[Deposit],
) -> Result<Work, NoMemory> {
    let from = steps_of(alloc, old)?;
    let to = steps_of(alloc, new)?;
    move_along(alloc, registry, &from, &to, new)
}

fn push_domains(
    text: &mut String,
    alloc: Global,
    registry: &mut MemRegistry,
) -> Result<(), NoMemory> {
    for name in ["a.example", "b.example", "c.example"] {
        let key = Key::named(alloc, Kind::Domain, name)?;
        if registry.get(alloc, &key)?.is_some() {
            write!(text, " {name}")?;
        }
    }
    Ok(())
}

// What is said of the move: the work, the writes that the registry counts in all, and the domains
// that it has then.
fn move_told(alloc: Global, old: &[&str], new: &[&str]) -> Result<String, Fault> {
    let old = deposits_of(alloc, old)?;
    let new = deposits_of(alloc, new)?;
    let mut registry = MemRegistry::new(alloc);
    go(alloc, &mut registry, &[], &old)?;
    let work = go(alloc, &mut registry, &old, &new)?;
    let writes = registry.writes();
    let mut text = format!(in alloc; "{work:?}, {writes} in all:")?;
    push_domains(&mut text, alloc, &mut registry)?;
    Ok(text)
}

#[test]
fn a_move_of_a_registry_in_memory(rt: HostRuntime) {
    let found = move_told(rt.alloc(), &[FIRST, SECOND, THIRD], &[FIRST, RESENT, THIRD]);
    let told =
        "Work { cleared: false, undone: 2, applied: 2, writes: 5 }, 10 in all: b.example c.example";
    assert_told(&rt, "a move", found, told);
}
