ghost use Rattle.std.specs.Prelude.{◌≡◌, ◌≤◌, true, map, length, take};
ghost use Rattle.encodings.specs.Meaning.{slots_fit};
ghost use Rattle.planner.specs.Called.{has_room, counted, child_roots, roots_exist, slots_under, fields_known, slots_for, node_of};
ghost use Rattle.planner.specs.Calls.{assemble};
ghost use Rattle.planner.specs.Contract.{outcome, shape_in};
ghost use Rattle.planner.specs.Seen.{state_of, means_in, Answers};

use crate::call::{Parts, Refusal};
use crate::planner::{Planner, ROOTS};
use crate::session::Session;
use encodings::encoding::EncodingSet;
use encodings::fields::{Fields, Shape};
use encodings::matcher::Matcher;
use optimizer::Bank;
use pool::node::{Node, SLOTS};
use rows::kinds::RowKinds;

impl Parts<'_> {
    // Whether the array has no more slots than a node has room for.
    pub fn has_room(&self) -> bool
        ensures { result ≡ has_room self.now.fields }
    {
        usize::from(self.fields.arity) <= SLOTS
    }

    // Whether there are as many roots as slots; not asked where there are more than eight slots.
    fn is_counted(&self) -> bool
        ensures { result ≡ counted self.now.fields self.now.roots.now }
    {
        !self.has_room() || self.roots.len() == usize::from(self.fields.arity)
    }

    // The roots of the children; none are looked at where there are more than eight slots.
    fn child_roots(&self) -> &[u8]
        ensures { result.now ≡ child_roots self.now.fields self.now.roots.now }
    {
        if self.has_room() { self.roots } else { &[] }
    }

    // Whether each of these roots exists.
    fn roots_exist(&self) -> bool
        ensures { result ≡ roots_exist (child_roots self.now.fields self.now.roots.now) }
    {
        self.child_roots()
            .iter()
            .all(|&root| usize::from(root) < ROOTS)
    }

    // A node of the fields, with these slots.
    fn node(&self, slots: [Option<u8>; SLOTS]) -> Node
        ensures { result ≡ node_of self.now.fields slots }
    {
        let Fields {
            encoding,
            kind,
            len,
            parameter,
            arity,
        } = self.fields;
        Node {
            encoding,
            kind,
            len,
            parameter,
            arity,
            slots,
            ..Node::FREE
        }
    }
}

impl<K: RowKinds, E: EncodingSet, B: Bank, M: Matcher> Planner<'_, K, E, B, M> {
    // The slots that name the nodes under these roots. The first root that is empty is refused.
    fn slots_under(&self, roots: &[u8]) -> Result<[Option<u8>; SLOTS], Refusal>
        requires few { length roots.now ≤ 8 }
        requires exist { roots_exist roots.now ≡ true }
        ensures { result ≡ slots_under (state_of self.now) roots.now }
    {
        let mut slots = [None; SLOTS];
        for (slot, &root) in roots.iter().enumerate() {
            slots[slot] = Some(self.held(root)?);
        }
        Ok(slots)
    }

    // Whether the encoding is one of the set other than Flat, and the fields are in range.
    fn fields_known(&self, fields: Fields) -> bool
        ensures { result ≡ fields_known (means_in K.RowKinds.kinds E.Encoding.means self.now.session) fields }
    {
        let head = fields.head();
        let Session {
            kinds,
            encodings,
            ..
        } = &self.session;
        encodings.matches(head) && !head.is_flat() && encodings.fields_fit(kinds, fields)
    }

    // What an array sees of what a slot names; an absent slot has the shape of a free node.
    fn shape(&self, slot: Option<u8>) -> Shape
        ensures { result ≡ shape_in (state_of self.now).memory slot }
    {
        match slot {
            Some(child) => self.pool.nodes[child as usize].into(),
            None => Node::FREE.into(),
        }
    }

    // What an array sees of what its slots name.
    fn shapes(&self, slots: [Option<u8>; SLOTS]) -> [Shape; SLOTS]
        ensures { result ≡ map (shape_in (state_of self.now).memory) slots }
    {
        slots.map(|slot| self.shape(slot))
    }

    // Whether the array takes these slots, by their number, and the kinds and the lengths of what they name.
    fn slots_fit(&self, fields: Fields, slots: [Option<u8>; SLOTS]) -> bool
        requires { fields.arity ≤ 8 }
        ensures { result ≡ slots_fit (means_in K.RowKinds.kinds E.Encoding.means self.now.session) fields (take fields.arity (map (shape_in (state_of self.now).memory) slots)) }
    {
        let shapes = &self.shapes(slots)[..usize::from(fields.arity)];
        let Session {
            kinds,
            encodings,
            ..
        } = &self.session;
        encodings.count_fits(kinds, fields)
            && encodings.kinds_fit(kinds, fields, shapes)
            && encodings.lengths_fit(kinds, fields, shapes)
    }

    // The slots of a new array under a root, where no check refuses. The range of all roots is checked before any of them
    // is looked at.
    fn slots_for(&self, root: u8, parts: &Parts) -> Result<[Option<u8>; SLOTS], Refusal>
        ensures { result ≡ slots_for (means_in K.RowKinds.kinds E.Encoding.means self.now.session) (state_of self.now) root parts.now.fields parts.now.roots.now }
    {
        if !parts.is_counted() {
            return Err(Refusal::Line);
        }
        let target = self.root(root)?;
        if !parts.roots_exist() {
            return Err(Refusal::RootRange);
        }
        let slots = self.slots_under(parts.child_roots())?;
        if target.is_some() {
            return Err(Refusal::RootTaken);
        }
        if !self.fields_known(parts.fields) {
            return Err(Refusal::Field);
        }
        if !self.slots_fit(parts.fields, slots) {
            return Err(Refusal::Slots);
        }
        Ok(slots)
    }

    // Puts an array of given fields under a root. Its children, which are shared, are the arrays under other roots.
    pub fn assemble(&mut self, root: u8, parts: Parts) -> Result<(), Refusal>
        ensures { Answers K.RowKinds.kinds E.Encoding.means self.old self.new (assemble root parts.entry.fields parts.entry.roots.now) (outcome result) }
    {
        let slots = self.slots_for(root, &parts)?;
        let node = self.pool.insert(parts.node(slots))?;
        self.roots[root as usize] = Some(node);
        Ok(())
    }
}
