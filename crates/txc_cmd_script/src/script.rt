// A script: its channels, and the transactions of each seat.
ghost use Rattle.std.specs.Prelude.{◌≡◌, map};
ghost use Rattle.txc_cmd_script.specs.Script.{IsSound};

use std::marker::Model;
use txc_chan::Decl;
use txc_txn_check::Checked;

/// A script that was read: at most 8 valid channels, and 1 to 16 seats whose transactions fit the channels.
#[derive(Debug, Drop)]
pub struct Script {
    pub(crate) decls: Vec<Decl>,
    pub(crate) seats: Vec<Vec<Checked>>,
}

impl Model for Script {
    ghost use Rattle.std.specs.Coded.{codes};
    ghost use Rattle.std.specs.Prelude.{map};
    ghost use Rattle.txc_cmd_script.specs.Script.{Script as Said, IsSound};
    ghost use Rattle.txc_txn_check.specs.contracts.step.Step as step;

    ghost Value = { Said };

    // Only for the proof: values of `Value` have a code, because the steps in them have one.
    ghost coded = { Prim.hlevel (codes, step.the_row.coded) };

    ghost view = { λ script. record {
      decls = script.decls.items;
      seats = map (λ seat. seat.items) script.seats.items;
    } };

    ghost invariant = { λ script. IsSound
        (record { decls = script.decls.items; seats = map (λ seat. seat.items) script.seats.items }) };
}

impl Script {
    /// Returns the declarations of the channels, indexed by channel number.
    pub fn decls(&self) -> &[Decl]
        ensures { result.now ≡ self.now.decls }
    {
        self.decls.as_slice()
    }

    /// Returns the transactions of each seat, indexed by seat number, in the order in which they run.
    pub fn seats(&self) -> &[Vec<Checked>]
        ensures { map (λ seat. seat.items) result.now ≡ self.now.seats }
    {
        self.seats.as_slice()
    }

    /// Shows the properties of every script to a proof. Does nothing at run time.
    pub fn show(&self)
        ensures { IsSound self.now }
    {
        // Only for the proof: the read of a field shows the invariant of the type.
        let _fields = &self.decls;
    }
}
