// A docket over the pile that a set text names.
ghost use Rattle.std.specs.Prelude.{◌≡◌, IfErr, IfOk};
ghost use Rattle.bottoms.specs.Catalogue.{catalogue, table_row};
ghost use Rattle.bottoms.specs.Tiles.{list_meaning};
ghost use Rattle.docket.specs.Tallies.{tallies_after, tally_in};
ghost use Rattle.laws.specs.Accepted.{FilingLaw};
ghost use Rattle.piles.specs.SetDockets.{NewOver, OpensSet, RowRefused, SetRefused, Started, TilesRefused, TilesThere, docket_ends, docket_meaning, docket_tallies};
ghost use Rattle.rules.specs.Filing.{ends_after, filing_answer, judged};

use crate::pile::{Pile, make_pile};
use crate::pile_fault::PileFault;
use crate::pile_kind::PileKind;
use bottoms::{CatalogueTransducer, ListTransducer, Tile};
use docket::{Docket, Tally};
use papers::Kind;
use rules::{DocketFault, Ends};
use setgrammar::SetText;
use std::alloc::Global;

// Over tiles, or over a row of the catalogue. A docket holds its pile by value, so each is a type of its own, and a call
// matches on which.
#[derive(Drop)]
pub enum SetDocket {
    Tiles(Docket<Pile<ListTransducer>>),
    Row(Docket<Pile<CatalogueTransducer>>),
}

impl SetDocket {
    // A docket over a pile of tiles.
    pub fn over_tiles(heap: Global, kind: PileKind, tiles: &[Tile]) -> Result<SetDocket, PileFault>
        ensures opens { IfOk result (λ d. NewOver kind (list_meaning tiles.now) d) }
        ensures starts { IfOk result Started }
        ensures refused { IfErr result (λ f. TilesRefused kind tiles.now f) }
    {
        let a = ListTransducer::new(heap, tiles)?;
        let b = ListTransducer::new(heap, tiles)?;
        let c = ListTransducer::new(heap, tiles)?;
        let d = ListTransducer::new(heap, tiles)?;
        let pile = make_pile(heap, kind, a, b, c, d)?;
        Ok(SetDocket::Tiles(Docket::open(pile)))
    }

    // A docket over a pile of a catalogue row, by its number in the texts. Any number may be asked for.
    pub fn over_row(heap: Global, kind: PileKind, row: u8) -> Result<SetDocket, PileFault>
        ensures opens { IfOk result (λ d. NewOver kind (catalogue (table_row row)) d) }
        ensures starts { IfOk result Started }
        ensures refused { IfErr result (λ f. RowRefused kind row f) }
    {
        let bottom = CatalogueTransducer::new(row)?;
        let pile = make_pile(heap, kind, bottom, bottom, bottom, bottom)?;
        Ok(SetDocket::Row(Docket::open(pile)))
    }

    // A docket over the pile that a set text names, over its row or over the first of the tiles.
    pub fn of_set(heap: Global, set: SetText, tiles: &[Tile]) -> Result<SetDocket, PileFault>
        ensures opens { IfOk result (λ d. OpensSet set tiles.now d) }
        ensures starts { IfOk result Started }
        ensures there { IfOk result (λ _. TilesThere set tiles.now) }
        ensures refused { IfErr result (λ f. SetRefused set tiles.now f) }
    {
        let kind = PileKind::try_from(set.pile)?;
        if set.row != 0 {
            return SetDocket::over_row(heap, kind, set.row);
        }
        let tiles = tiles.get(..usize::from(set.tiles)).ok_or(PileFault::List)?;
        SetDocket::over_tiles(heap, kind, tiles)
    }

    // Files a paper: it is accepted and may move a width, or turned down with its first fault.
    pub fn file(&mut self, paper: &[u8]) -> Result<Ends, DocketFault>
        ensures answer { result ≡ filing_answer (docket_ends self.old) (judged (docket_meaning self.old) paper.now) }
        ensures ends { docket_ends self.new
            ≡ ends_after (docket_ends self.old) (judged (docket_meaning self.old) paper.now) }
        ensures pile { docket_meaning self.new ≡ docket_meaning self.old }
        ensures tallies { docket_tallies self.new
            ≡ tallies_after (docket_tallies self.old) (docket_meaning self.old) paper.now }
        ensures law { FilingLaw (docket_meaning self.old) paper.now (judged (docket_meaning self.old) paper.now) }
    {
        match self {
            SetDocket::Tiles(docket) => docket.file(paper),
            SetDocket::Row(docket) => docket.file(paper),
        }
    }

    // The floor and the ceiling.
    pub fn ends(&self) -> Ends
        ensures { result ≡ docket_ends self.now }
    {
        match self {
            SetDocket::Tiles(docket) => docket.ends(),
            SetDocket::Row(docket) => docket.ends(),
        }
    }

    // How many papers of a kind were accepted and turned down; under none, those that could not be read.
    pub fn tally(&self, kind: Option<Kind>) -> Tally
        ensures { result ≡ tally_in (docket_tallies self.now) kind }
    {
        match self {
            SetDocket::Tiles(docket) => docket.tally(kind),
            SetDocket::Row(docket) => docket.tally(kind),
        }
    }
}
