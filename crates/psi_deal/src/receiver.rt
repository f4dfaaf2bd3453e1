// The receiver's deal.
ghost use Rattle.std.specs.Prelude.{◌≡◌, ◌≤◌, ◌<◌, length, map};
ghost use Rattle.psi_spec.specs.Columns.{column};
ghost use Rattle.psi_spec.specs.Matrices.{IsCleanMatrix};
ghost use Rattle.psi_spec.specs.Deals.{seed_at, chosen_seed, zero_columns, one_columns};
ghost use Rattle.psi_deal.specs.Pairs.{pairs_of};

use crate::columns::fill_column;
use crate::head::Head;
use crate::seeds::SeedPair;
use psi_base::TagLength;
use psi_bits::Columns;
use std::marker::Model;

/// What the receiver is dealt: both seeds of 512 base transfers, beside what both deals hold.
#[derive(Drop)]
pub struct ReceiverDeal {
    pub(crate) head: Head,
    pub(crate) pairs: Vec<SeedPair>,
}

impl Model for ReceiverDeal {
    ghost use Rattle.psi_spec.specs.Deals.{ReceiverDeal as Dealt, IsReceiverDeal};
    ghost use Rattle.psi_deal.specs.Pairs.{receiver_view};

    ghost Value = { Dealt };

    ghost view = { λ d. receiver_view d.head d.pairs.items };

    ghost invariant = { λ d. IsReceiverDeal (receiver_view d.head d.pairs.items) };
}

impl ReceiverDeal {
    ghost use Rattle.psi_spec.specs.Deals.{IsReceiverDeal};

    /// The name that both deals have.
    pub fn id(&self) -> &[u8; 16]
        ensures id { result.now ≡ self.now.id }
        ensures deal { IsReceiverDeal self.now }
    {
        &self.head.id
    }

    /// The number of the session.
    pub fn session(&self) -> u64
        ensures { result ≡ self.now.session }
    {
        self.head.session
    }

    /// The key of codes, bins and tags.
    pub fn key(&self) -> &[u8; 16]
        ensures { result.now ≡ self.now.key }
    {
        &self.head.key
    }

    /// The length of a tag.
    pub fn tag_length(&self) -> TagLength
        ensures { result ≡ self.now.tag_length }
    {
        self.head.tag_length
    }

    /// The rows of the stash: 0 to 16.
    pub fn stash(&self) -> u8
        ensures stash { result ≡ self.now.stash }
        ensures most { result ≤ 16 }
    {
        self.head.stash
    }

    /// A seed of base transfer `c`, counted from 0 and below 512: the zero seed where `which` is 0,
    /// and the one seed where it is 1.
    pub fn seed(&self, which: u8, c: u16) -> &[u8; 32]
        requires which { which ≤ 1 }
        requires column { c < 512 }
        ensures { result.now ≡ seed_at self.now which c }
    {
        self.pairs[usize::from(c)].seed(which)
    }

    /// Makes `zeros` the columns of the zero seeds, and `ones` those of the one seeds. Both have the same
    /// number of rows.
    pub fn columns(&self, zeros: &mut Columns, ones: &mut Columns)
        requires { ones.old.rows ≡ zeros.old.rows }
        ensures zero { zeros.new ≡ record {
          rows = zeros.old.rows;
          columns = zero_columns self.now zeros.old.rows;
        } }
        ensures one { ones.new ≡ record {
          rows = zeros.old.rows;
          columns = one_columns self.now zeros.old.rows;
        } }
        ensures zero_clean { IsCleanMatrix zeros.new }
        ensures one_clean { IsCleanMatrix ones.new }
    {
        self.zero_columns(zeros);
        self.one_columns(ones);
    }

    /// Makes the columns those of the zero seeds.
    pub fn zero_columns(&self, out: &mut Columns)
        ensures columns { out.new ≡ record {
          rows = out.old.rows;
          columns = zero_columns self.now out.old.rows;
        } }
        ensures clean { IsCleanMatrix out.new }
    {
        put_columns(&self.pairs, 0, self.head.session, out);
    }

    /// Makes the columns those of the one seeds.
    pub fn one_columns(&self, out: &mut Columns)
        ensures columns { out.new ≡ record {
          rows = out.old.rows;
          columns = one_columns self.now out.old.rows;
        } }
        ensures clean { IsCleanMatrix out.new }
    {
        put_columns(&self.pairs, 1, self.head.session, out);
    }
}

// Makes the columns those of the zero seeds of 512 pairs where `which` is 0, and else of the one seeds.
fn put_columns(pairs: &[SeedPair], which: u8, session: u64, out: &mut Columns)
    requires { length pairs.now ≡ 512 }
    ensures columns { out.new ≡ record {
      rows = out.old.rows;
      columns = map (λ pair. column (chosen_seed which pair) session out.old.rows) (pairs_of pairs.now);
    } }
    ensures clean { IsCleanMatrix out.new }
{
    let rows = out.rows();
    for c in 0..512u16 {
        let seed = pairs[usize::from(c)].seed(which);
        fill_column(seed, session, rows, out.column_mut(c));
    }
}
