// The sender's deal.
ghost use Rattle.std.specs.Prelude.{◌≡◌, ◌≤◌, ◌<◌, [], length, map, slice_index_or};
ghost use Rattle.psi_spec.specs.Columns.{column};
ghost use Rattle.psi_spec.specs.Matrices.{IsCleanMatrix};
ghost use Rattle.psi_spec.specs.Deals.{sender_columns};

use crate::columns::fill_column;
use crate::head::Head;
use psi_base::TagLength;
use psi_bits::{Columns, Word512};
use std::marker::Model;

/// What the sender is dealt: a choice word and the seed that it names of each of 512 base
/// transfers, beside what both deals hold.
#[derive(Drop)]
pub struct SenderDeal {
    pub(crate) head: Head,
    pub(crate) choice: Word512,
    pub(crate) seeds: Vec<[u8; 32]>,
}

impl Model for SenderDeal {
    ghost use Rattle.psi_spec.specs.Deals.{SenderDeal as Dealt, IsSenderDeal};
    ghost use Rattle.psi_deal.specs.Pairs.{sender_view};

    ghost Value = { Dealt };

    ghost view = { λ d. sender_view d.head d.choice d.seeds.items };

    ghost invariant = { λ d. IsSenderDeal (sender_view d.head d.choice d.seeds.items) };
}

impl SenderDeal {
    ghost use Rattle.psi_spec.specs.Deals.{IsSenderDeal};

    /// The name that both deals have.
    pub fn id(&self) -> &[u8; 16]
        ensures id { result.now ≡ self.now.id }
        ensures deal { IsSenderDeal self.now }
    {
        &self.head.id
    }

    /// The number of the session.
    pub fn session(&self) -> u64
        ensures { result ≡ self.now.session }
    {
        self.head.session
    }

    /// The key of codes, bins and tags.
    pub fn key(&self) -> &[u8; 16]
        ensures { result.now ≡ self.now.key }
    {
        &self.head.key
    }

    /// The length of a tag.
    pub fn tag_length(&self) -> TagLength
        ensures { result ≡ self.now.tag_length }
    {
        self.head.tag_length
    }

    /// The rows of the stash: 0 to 16.
    pub fn stash(&self) -> u8
        ensures stash { result ≡ self.now.stash }
        ensures most { result ≤ 16 }
    {
        self.head.stash
    }

    /// The choice word: bit c chooses the seed of base transfer c.
    pub fn choice(&self) -> &Word512
        ensures { result.now ≡ self.now.choice }
    {
        &self.choice
    }

    /// The chosen seed of base transfer `c`, counted from 0 and below 512.
    pub fn chosen_seed(&self, c: u16) -> &[u8; 32]
        requires { c < 512 }
        ensures { result.now ≡ slice_index_or self.now.chosen c [] }
    {
        &self.seeds[usize::from(c)]
    }

    /// Makes `out` the columns of the chosen seeds.
    pub fn chosen(&self, out: &mut Columns)
        ensures columns { out.new ≡ record {
          rows = out.old.rows;
          columns = sender_columns self.now out.old.rows;
        } }
        ensures clean { IsCleanMatrix out.new }
    {
        put_chosen(&self.seeds, self.head.session, out);
    }
}

// Makes the columns those of 512 seeds.
fn put_chosen(seeds: &[[u8; 32]], session: u64, out: &mut Columns)
    requires { length seeds.now ≡ 512 }
    ensures columns { out.new ≡ record {
      rows = out.old.rows;
      columns = map (λ seed. column seed session out.old.rows) seeds.now;
    } }
    ensures clean { IsCleanMatrix out.new }
{
    let rows = out.rows();
    for c in 0..512u16 {
        fill_column(&seeds[usize::from(c)], session, rows, out.column_mut(c));
    }
}
