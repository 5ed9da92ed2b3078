//! What each pass of a deque knows, and the rule that ties it to the pieces in the deque.
//!
//! 64 parts are dealt out among a deque's passes: a call learns what the sums of a deque are only
//! where it knows that no other pass is at work there, which who has all parts does. A thief has
//! one, the owner the rest, and joining gives them back. Beside the sums the rule keeps the order
//! of what was put, so that an owner who took the last piece would break it. A count is a step too:
//! before `close` takes a piece it counts those in the deque, which changes nothing, and learns the
//! sums.

ghost use Rattle.std.specs.Prelude.{◌≡◌, ◌+◌, ◌-◌, [], ◌++◌};
ghost use Rattle.steal_pool.specs.Accounts.{account, Balanced, Held, WasFirst, IsSettled};

use crossbeam_deque::protocol::{Join, Lesson, Outcome, Protocol, Split};
use solid_model::Prefix;
use std::collections::LinkedList;

/// What a pass has put and taken, and its parts of the right to draw the balance: a pass that has
/// all of them knows that no other one is at work. No value of it is ever made.
pub struct Account {
    pub parts: u64,
    pub put: LinkedList<Prefix>,
    pub taken: LinkedList<Prefix>,
}

/// The rule of a deque: what was put was taken or is still there, each piece as often, and what is
/// there was put last.
pub struct Balance;

impl Protocol<Prefix, Account> for Balance {
    ghost use Rattle.std.specs.Prelude.{[]};
    ghost use Rattle.steal_pool.specs.Accounts.{account, Balanced};

    ghost holds = { Balanced };

    ghost first = { account 64 [] [] };

    ghost guest = { account 0 [] [] };
}

/// A pass gives one of its parts to a new one; a pass that ends gives its parts back, with what it
/// has taken.
pub struct Shares;

impl Split<Account> for Shares {
    ghost use Rattle.std.specs.Prelude.{[], ◌-◌};
    ghost use Rattle.steal_pool.specs.Accounts.{account};

    ghost left = { λ v. account (v.parts - 1) v.put v.taken };

    ghost right = { λ v. account 1 [] [] };
}

impl Join<Account> for Shares {
    ghost use Rattle.std.specs.Prelude.{[], ◌+◌, ◌++◌};
    ghost use Rattle.steal_pool.specs.Accounts.{account};

    ghost both = { λ v w. account (v.parts + w.parts) v.put (v.taken ++ w.taken) };

    ghost spent = { account 0 [] [] };
}

/// What a put tells.
pub struct Puts;

impl Outcome<Prefix, Account> for Puts {
    ghost then = { λ v xs w. w ≡ account v.parts (v.put ++ xs) v.taken };
}

/// What it tells that a piece was taken, or that there was none.
pub struct Takes;

impl Outcome<Prefix, Account> for Takes {
    ghost then = { λ v xs w. (w ≡ account v.parts v.put (v.taken ++ xs)) × WasFirst xs v };

    ghost empty = { Held [] };
}

/// What a pass that has all parts learns by counting the pieces.
pub struct Whole;

impl Lesson<Prefix, Account> for Whole {
    ghost fact = { IsSettled };
}

/// What a pass learns by counting the pieces, whatever parts it has: nothing of them.
pub struct Counted;

impl Lesson<Prefix, Account> for Counted {
    ghost fact = { λ v xs. Unit {0} };
}
