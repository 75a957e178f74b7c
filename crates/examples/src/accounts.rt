// Transfers between accounts, with fees.
ghost use Rattle.std.specs.Prelude.{◌≡◌, ◌<◌, ◌≤◌, ◌↔◌, ◌∷◌, ◌++◌, [], true, length, IfOk, OnOk};
ghost use Rattle.std.specs.List.{AllByRecursion};
ghost use Rattle.std.specs.Option.{option_copied};
ghost use Rattle.ss_base.specs.declared.limits.TheConstants as limits;
ghost use Rattle.delegation.specs.Runtimes.{IsAfter};
ghost use Rattle.examples.specs.Accounts.{balance_after, balances_after, holding_after};
ghost use Rattle.examples.specs.Accounts.{holding_meaning, balances_of, IsBetween, MOST_TRANSFERS};
ghost use Rattle.examples.specs.AccountCalls.{booking_call, settle_calls};

use crate::outcome::outcome_of;
use class_laws::{Class, Reducible, WrapSum};
use delegation::{Call, Delegation};
use execution_definitions::By;
use ss_base::{ObjectId, OutOfMemory};
use std::alloc::Global;
use std::sync::Wait;
use std::thread::Threads;

/// What each booking costs the account that it is made on.
#[derive(Clone, Copy, Debug, PartialEq, Eq)]
pub struct Fees {
    pub debit: u64,
    pub credit: u64,
}

/// An amount that goes from one account to another, both by their numbers from 0.
#[derive(Clone, Copy, Debug, PartialEq, Eq)]
pub struct Transfer {
    pub from: u32,
    pub to: u32,
    pub amount: u64,
}

/// What the program is made of.
#[derive(Clone, Copy, Debug, PartialEq, Eq)]
pub enum Holding {
    Fees(Fees),
    /// An account's balance.
    Account(u64),
}

/// What is done to an account, reading the fees. Nothing else changes where the holdings are others,
/// and nothing is contributed.
#[derive(Clone, Copy, Debug, PartialEq, Eq)]
pub enum Booking {
    /// Takes the amount and the fee off, or all that there is.
    Debit(u64),
    /// Adds the amount less the fee, up to 2^64 - 1.
    Credit(u64),
}

// The balance of an account after a booking.
fn balance_after(fees: Fees, booking: Booking, balance: u64) -> u64
    ensures { result ≡ balance_after fees booking balance }
{
    match booking {
        Booking::Debit(amount) => balance.saturating_sub(amount).saturating_sub(fees.debit),
        Booking::Credit(amount) => balance.saturating_add(amount.saturating_sub(fees.credit)),
    }
}

// A holding after a booking.
fn holding_after(holding: Holding, booking: Booking, reading: Option<&Holding>) -> Holding
    ensures { result ≡ holding_after holding booking (option_copied reading.entry) }
{
    match (holding, reading) {
        (Holding::Account(balance), Some(Holding::Fees(fees))) => {
            Holding::Account(balance_after(*fees, booking, balance))
        }
        _ => holding,
    }
}

impl Class for Holding {
    type Op = Booking;

    type Red = WrapSum;

    ghost use Rattle.std.specs.Prelude.{refl};
    ghost use Rattle.examples.specs.Accounts.{holding_meaning};

    ghost meaning = { holding_meaning };

    ghost same_unit = { refl };

    ghost same_join = { refl };

    fn apply(
        &mut self,
        alloc: Global,
        booking: &Booking,
        reading: Option<&Holding>,
        red: &mut WrapSum,
    ) -> Result<(), OutOfMemory> {
        *self = holding_after(*self, *booking, reading);
        red.join(WrapSum::unit(alloc))
    }

    fn own_set(_booking: &Booking) -> u64 {
        0
    }

    fn copy(&self, _alloc: Global) -> Result<Holding, OutOfMemory> {
        Ok(*self)
    }
}

/// Whether each transfer is between accounts that there are.
pub fn are_between(accounts: usize, transfers: &[Transfer]) -> bool
    ensures { (result ≡ true) ↔ AllByRecursion (IsBetween accounts) transfers.now }
{
    for transfer in transfers {
        if transfer.from as usize >= accounts || transfer.to as usize >= accounts {
            return false;
        }
    }
    true
}

// A booking on an account.
fn booking_call(account: u32, booking: Booking) -> Call<Holding>
    requires { account < limits.OBJECTS }
    ensures { result ≡ booking_call account booking }
{
    Call::Delegate {
        object: ObjectId(1 + account),
        op: booking,
        reading: Some(ObjectId(0)),
    }
}

// The calls of the program: each account is an object by sequence, and a transfer is two bookings.
fn calls_of(
    alloc: Global,
    fees: Fees,
    balances: &[u64],
    transfers: &[Transfer],
) -> Result<Vec<Call<Holding>>, OutOfMemory>
    requires accounts { length balances.now < limits.OBJECTS }
    requires between { AllByRecursion (IsBetween (length balances.now)) transfers.now }
    ensures { IfOk result (λ calls.
        calls.items ≡ settle_calls fees balances.now transfers.now) }
{
    let mut calls = Vec::new(alloc);
    calls.push(Call::MakeFixed {
        value: Holding::Fees(fees),
    })?;
    for balance in balances {
        calls.push(Call::Make {
            value: Holding::Account(*balance),
            by: By::Sequence,
        })?;
    }
    calls.push(Call::Begin)?;
    for transfer in transfers {
        calls.push(booking_call(transfer.from, Booking::Debit(transfer.amount)))?;
        calls.push(booking_call(transfer.to, Booking::Credit(transfer.amount)))?;
    }
    calls.push(Call::End)?;
    Ok(calls)
}

// Appends the balance of a holding that is an account.
fn push_balance(holding: Holding, balances: &mut Vec<u64>) -> Result<(), OutOfMemory>
    ensures { OnOk result
        (balances.new.items ≡ balances.old.items ++ balances_of (holding ∷ [])) }
{
    if let Holding::Account(balance) = holding {
        balances.push(balance)?;
    }
    Ok(())
}

// The balances of the accounts among holdings.
fn balances_of(alloc: Global, holdings: &[Holding]) -> Result<Vec<u64>, OutOfMemory>
    ensures { IfOk result (λ balances. balances.items ≡ balances_of holdings.now) }
{
    let mut balances = Vec::new(alloc);
    for holding in holdings {
        push_balance(*holding, &mut balances)?;
    }
    Ok(balances)
}

/// The balances of the accounts after the transfers, one after the other: fewer than 1,048,576
/// accounts and at most 2^32 transfers. Bookings on different accounts may be made at once, and those
/// on one are made in the order of the transfers. The runtime is a new one.
pub fn settle<D: Delegation<Holding> + Drop, R: Threads + Wait + Copy + Send + Sync + 'static>(
    rt: &R,
    alloc: Global,
    d: D,
    fees: Fees,
    balances: &[u64],
    transfers: &[Transfer],
) -> Result<Vec<u64>, OutOfMemory>
    requires new { IsAfter holding_meaning (D.seen d) [] }
    requires accounts { length balances.now < limits.OBJECTS }
    requires few { length transfers.now ≤ MOST_TRANSFERS }
    requires between { AllByRecursion (IsBetween (length balances.now)) transfers.now }
    ensures { IfOk result (λ settled.
        settled.items ≡ balances_after fees balances.now transfers.now) }
{
    let calls = calls_of(alloc, fees, balances, transfers)?;
    let end = outcome_of(rt, alloc, d, calls)?;
    balances_of(alloc, &end.values)
}
