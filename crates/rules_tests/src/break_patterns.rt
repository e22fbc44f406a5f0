//! In which slots a duty works, and numbers of prefixes of lists.
ghost use Rattle.std.specs.Prelude.{◌≡◌};

use crate::small_rules::short;
use break_rules::{Break, Breaks, NoMemory, Rule};
use patterns::{Pattern, Trie, works};
use std::alloc::Global;
use std::test::Fail;

/// A rule by which a slot behind each break is no work.
fn resettling(alloc: Global) -> Result<Rule, NoMemory> {
    let mut rule = Rule::plain(alloc)?;
    rule.resettle = 1;
    Ok(rule)
}

/// A copy of the pattern of 8 slots with one short break at offset 3.
fn pattern_of_eight(alloc: Global) -> Result<Pattern, NoMemory> {
    let list = Breaks::new(Vec::from_slice(alloc, &[short(3)])?);
    Pattern { list, len: 8 }.clone()
}

/// Whether a duty of this pattern works at offsets 2 to 5.
fn works_around(rule: &Rule, pattern: &Pattern) -> [bool; 4] {
    let list = pattern.list.as_slice();
    [
        works(rule, pattern.len, list, 2),
        works(rule, pattern.len, list, 3),
        works(rule, pattern.len, list, 4),
        works(rule, pattern.len, list, 5),
    ]
}

#[test]
fn a_break_and_the_slot_behind_it_are_no_work(rt: HostRuntime) -> Result<(), Fail> {
    let alloc = rt.alloc();
    let rule = resettling(alloc)?;
    let pattern = pattern_of_eight(alloc)?;
    assert_eq!(rt; works_around(&rule, &pattern), [true, false, false, true]);
    Ok(())
}

/// Adds numbers for some lists of two breaks.
fn add_numbers(trie: &mut Trie, a: Break, b: Break) -> Result<(), NoMemory>
    requires { trie.old.additions ≡ 0 }
{
    trie.add(&[], 7)?;
    trie.add(&[a], -20)?;
    trie.add(&[b], 5000)?;
    trie.add(&[a, b], 100)?;
    trie.add(&[a, b], 1000)
}

/// What the prefixes of three breaks get, where some lists of the first two have numbers.
fn bonus_of_three(alloc: Global) -> Result<i128, NoMemory> {
    let a = short(2);
    let b = Break { start: 5, len: 2 };
    let mut trie = Trie::new(alloc)?;
    add_numbers(&mut trie, a, b)?;
    Ok(trie.bonus_of(&[a, b, a]))
}

#[test]
fn numbers_of_all_prefixes_are_added_up(rt: HostRuntime) -> Result<(), Fail> {
    assert_eq!(rt; bonus_of_three(rt.alloc())?, 1087);
    Ok(())
}
