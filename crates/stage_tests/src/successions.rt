//! Successions whose rounds were found by hand.

ghost use Rattle.std.specs.Prelude.{◌≡◌, ◌≤◌, ◌<◌, length, IsTrue, IfOk};
ghost use Rattle.rounds.specs.Succession.{IsSuccession};
ghost use Rattle.stage_tests.specs.Tables.{follower, has_follower, IsTold};

use rounds::{Succession, all_rounds};
use std::alloc::Global;
use std::fmt::Write;
use std::test::Fail;
use test_files::rows_tell;

/// A row a succession: for each node, from 0 on, the digit of the node that follows it, or a point
/// for a node that isn't inside; and its rounds, a digit a node. The first has no node.
const SUCCESSIONS: &str = "
.
0 -> 0
10 -> 01
.1 -> 1
120.4 -> 012 4
4.0.25 -> 042 5
2301 -> 02 13
3201 -> 0312
.3.5.1 -> 135
1234560 -> 0123456
6543210 -> 06 15 24 3";

/// What stands in place of a follower where a node isn't inside.
const OUTSIDE: usize = 10;

/// A succession as a table: the follower of each node.
#[derive(Drop)]
struct Table {
    followers: Vec<usize>,
    ghost sound: { IsSuccession (length followers.items) (has_follower followers.items)
        (follower followers.items) },
}

impl Succession for Table {
    ghost nodes = { λ t. length t.followers.items };

    ghost inside = { λ t. has_follower t.followers.items };

    ghost next = { λ t. follower t.followers.items };

    fn node_count(&self) -> usize {
        self.followers.len()
    }

    fn has(&self, node: usize) -> bool {
        self.followers[node] != OUTSIDE
    }

    fn following(&self, node: usize) -> usize {
        self.followers[node]
    }
}

/// A node isn't inside, or is followed by an inside node, which is told to follow it.
fn is_told_back(followers: &[usize], leaders: &[usize], node: usize) -> bool
    requires { node < length followers.now }
    ensures { IsTrue result → IsTold followers.now leaders.now node }
{
    let next = followers[node];
    next == OUTSIDE
        || next < followers.len()
            && next < leaders.len()
            && followers[next] != OUTSIDE
            && leaders[next] == node
}

/// The followers are a succession: no node is told to follow two.
fn is_succession(followers: &[usize], leaders: &[usize]) -> bool
    ensures { IsTrue result → IsSuccession (length followers.now) (has_follower followers.now)
        (follower followers.now) }
{
    for node in 0..followers.len() {
        if !is_told_back(followers, leaders, node) {
            return false;
        }
    }
    true
}

/// For each node one that it follows, if there is any.
fn leaders_of(alloc: Global, followers: &[usize]) -> Result<Vec<usize>, Fail> {
    let mut leaders = vec![in alloc; OUTSIDE; followers.len()]?;
    for node in 0..followers.len() {
        let next = followers[node];
        if next < leaders.len() {
            leaders[next] = node;
        }
    }
    Ok(leaders)
}

/// The succession that a row begins with.
fn read_table(alloc: Global, text: &str) -> Result<Table, Fail> {
    let mut followers = Vec::new(alloc);
    for byte in text.bytes() {
        followers.push(if byte == b'.' {
            OUTSIDE
        } else {
            usize::from(byte.saturating_sub(b'0'))
        })?;
    }
    let leaders = leaders_of(alloc, followers.as_slice())?;
    if !is_succession(followers.as_slice(), leaders.as_slice()) {
        return Err(Fail::new("no succession"));
    }
    Ok(Table { followers })
}

/// Adds a round.
fn push_round(told: &mut String, round: &[usize]) -> Result<(), Fail> {
    if !told.is_empty() {
        told.push_str(" ")?;
    }
    for node in round {
        write!(told, "{node}")?;
    }
    Ok(())
}

/// The rounds of a succession, as a row has them.
fn told_rounds(alloc: Global, text: &str) -> Result<String, Fail> {
    let table = read_table(alloc, text)?;
    let mut told = String::new(alloc);
    for round in &all_rounds(alloc, &table)? {
        push_round(&mut told, round.as_slice())?;
    }
    Ok(told)
}

#[test]
fn rounds_are_those_found_by_hand(rt: HostRuntime) -> Result<(), Fail> {
    rows_tell(SUCCESSIONS, |row| told_rounds(rt.alloc(), row.told))
}
