// An operation, and the state of a journal in which it is looked at.

ghost use Rattle.std.specs.Prelude.{◌≡◌, Some};
ghost use Rattle.fnc_journal.specs.Found as Found;
ghost use Rattle.fnc_search.specs.Pursued.{operation, pursued_of};

use crate::found::{Asked, request};
use crate::past::Past;
use fnc_journal::{Kind, Scope};
use std::marker::Model;

/// An operation: the number of the request that began it, and what its entry says.
#[derive(Drop)]
pub struct Operation<'a> {
    req: u32,
    asked: Asked<'a>,
}

impl<'a> Model for Operation<'a> {
    ghost use Rattle.fnc_search.specs.Pursued.{Pursued};

    ghost Value = { Pursued };

    ghost view = { λ o. record { req = o.req; asked = o.asked } };
}

impl<'a> Operation<'a> {
    /// The operation of a request.
    pub fn new(req: u32, asked: Asked<'a>) -> Operation<'a>
        ensures { result ≡ record { req = req; asked = asked.entry } }
    {
        Operation { req, asked }
    }

    /// The number of the request that began it.
    pub fn req(&self) -> u32
        ensures { result ≡ self.now.req }
    {
        self.req
    }

    /// The action that is wanted.
    pub fn kind(&self) -> Kind
        ensures { result ≡ self.now.asked.kind }
    {
        self.asked.kind
    }

    /// The node.
    pub fn target(&self) -> &'a str
        ensures { result.now ≡ self.now.asked.target }
    {
        self.asked.target
    }

    /// When it began.
    pub fn begin(&self) -> u64
        ensures { result ≡ self.now.asked.moment }
    {
        self.asked.moment
    }

    /// When its total is over.
    pub fn over(&self) -> u128
        ensures { result ≡ (operation self.now).over }
    {
        u128::from(self.asked.moment) + u128::from(self.asked.total)
    }

    /// The coin that was drawn for its delays.
    pub fn coin(&self) -> u64
        ensures { result ≡ self.now.asked.coin }
    {
        self.asked.coin
    }

    /// Which levels it takes.
    pub fn scope(&self) -> Scope
        ensures { result ≡ self.now.asked.scope }
    {
        self.asked.scope
    }

    /// What lies before its request.
    pub fn before(&self) -> Past<'a>
        ensures { result ≡ self.now.asked.before }
    {
        self.asked.before.again()
    }
}

/// The operation of a number.
pub fn operation_of<'a>(past: &Past<'a>, req: u32) -> Option<Operation<'a>>
    ensures { result ≡ pursued_of req past.now }
{
    let asked = request(past, req)?;
    if req == asked.lead {
        Some(Operation::new(req, asked))
    } else {
        None
    }
}
