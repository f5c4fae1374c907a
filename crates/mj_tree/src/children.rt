// The children of a node. Those whose subscripts are whole numbers in a row lie in a list, where the number tells the place. All others come behind them,
// and lie in a map.

ghost use Rattle.std.specs.Prelude.{◌≡◌, ◌+◌, ◌<◌, ◌≤◌, true, [], length, take, drop, MatchOption, IfOk, IfSome, OnOk, OnErr, IsTrue, T, option_copied, ◌↔◌};
ghost use Rattle.std.specs.Map.{lookup};
ghost use Rattle.std.specs.BTreeMap.{is_at, insert_entry};
ghost use Rattle.std.specs.VecDeque.{deque_len, deque_capacity};
ghost use Rattle.std.specs.FinMap.{is_sorted};
ghost use Rattle.std.specs.FinMap.Entries.{below_all};
ghost use Rattle.mj_num.specs.Number.{IsInRange};
ghost use Rattle.mj_subs.specs.Collation.{subscript_cmp};
ghost use Rattle.mj_tree.specs.Nest.{beyond};
ghost use Rattle.mj_tree.specs.Rows.{AreNumbers, IsRow, IsNumber, IsPlace, IsPlaceOf, IsEnd, IsAhead, IsPast, is_ahead, IsFirst, IsLast, AllBefore, earlier, live};
ghost use Rattle.mj_tree.specs.Rows.{IsOrdered, IsTrimmed, IsSound, CanAdd, Adds, all_of, places, AreSound};
ghost use Rattle.mj_tree.specs.Steps.{steps_rest};

use crate::node::Node;
use mj_num::Num;
use mj_subs::Sub;
use mj_text::Text;
use std::alloc::{AllocError, Global};
use std::collections::{BTreeMap, VecDeque, btree_map, vec_deque};
use std::ops::Bound;

/// So many places a row may have, whatever they hold. A longer one grows by at most one empty place at a time.
const SHORT_ROW: usize = 16;

/// So many places in a row that hold nothing part it.
const GAP_LIMIT: usize = 16;

/// Children by their subscripts, the row first. A place of the row is empty where its node has no text at it or below.
#[cycle(node)]
#[derive(Drop)]
pub struct Children {
    pub row: VecDeque<(Sub, Node)>,
    pub others: BTreeMap<Sub, Node>,
}

impl Children {
    /// No children.
    pub fn new(alloc: Global) -> Children
        ensures row { result.row.items ≡ [] }
        ensures others { result.others.entries ≡ [] }
    {
        Children {
            row: VecDeque::new(alloc),
            others: BTreeMap::new(alloc),
        }
    }

    // The number of the first place of the row.
    fn start(&self) -> Option<Num>
        requires { IsRow self.now.row.items }
        ensures numbers { MatchOption result (self.now.row.items ≡ []) (λ z. AreNumbers z self.now.row.items) }
        ensures some { IfSome result (λ z. 0 < length self.now.row.items) }
    {
        match self.row.front() {
            None => None,
            Some(first) => first.0.number(),
        }
    }

    /// The place of a number in the row.
    pub fn place(&self, number: Num) -> Option<usize>
        requires { IsRow self.now.row.items }
        ensures { IsPlace number self.now.row.items result }
    {
        let first = self.start()?;
        if number.is_less(first) {
            return None;
        }
        let at = (number.value() - first.value()) as usize;
        if at < self.row.len() { Some(at) } else { None }
    }

    /// The place of a subscript in the row.
    pub fn place_of(&self, sub: &Sub) -> Option<usize>
        requires { IsRow self.now.row.items }
        ensures { IsPlaceOf sub.now self.now.row.items result }
    {
        match sub.number() {
            None => None,
            Some(number) => self.place(number),
        }
    }

    /// The child at a subscript.
    pub fn get(&self, sub: &Sub) -> Option<&Node>
        requires { IsOrdered self.now.row.items self.now.others.entries }
        ensures { option_copied result ≡ lookup (is_at (subscript_cmp sub.now)) (all_of self.now) }
    {
        match self.place_of(sub) {
            Some(at) => Some(&self.row[at].1),
            None => self.others.get(sub),
        }
    }

    /// The child at the subscript of a text.
    pub fn get_at(&self, text: &Text) -> Result<Option<&Node>, AllocError>
        requires { IsOrdered self.now.row.items self.now.others.entries }
        ensures { IfOk result (λ child. option_copied child ≡ lookup (is_at (subscript_cmp text.now)) (all_of self.now)) }
    {
        if let Some(number) = Num::at_hand(text) {
            if let Some(at) = self.place(number) {
                return Ok(Some(&self.row[at].1));
            }
        }
        let sub = Sub::from_text(text.try_clone()?);
        Ok(self.get(&sub))
    }

    // How many places of the row stand before a subscript, and how many stand before it or at it.
    fn span(&self, sub: &Sub) -> (usize, usize)
        requires { IsOrdered self.now.row.items self.now.others.entries }
        ensures before { earlier subscript_cmp sub.now self.now.row.items ≡ take result.0 self.now.row.items }
        ensures behind { beyond subscript_cmp sub.now self.now.row.items ≡ drop result.1 self.now.row.items }
        ensures within { (result.0 ≤ length self.now.row.items) × (result.1 ≤ length self.now.row.items) }
    {
        match self.place_of(sub) {
            Some(at) => (at, at + 1),
            None => {
                if self.is_ahead(sub) {
                    (0, 0)
                } else {
                    (self.row.len(), self.row.len())
                }
            }
        }
    }

    // Whether a subscript stands before the row.
    fn is_ahead(&self, sub: &Sub) -> bool
        ensures { result ≡ is_ahead sub.now self.now.row.items }
    {
        match self.row.front() {
            None => false,
            Some(first) => sub.cmp(&first.0).is_lt(),
        }
    }

    // The first child of the row from a place on.
    fn next_from(&self, from: usize) -> Option<(&Sub, &Node)>
        requires { from ≤ length self.now.row.items }
        ensures { IsFirst (live (drop from self.now.row.items)) result }
    {
        for place in self.row.range(from..) {
            if !place.1.is_empty() {
                return Some((&place.0, &place.1));
            }
        }
        None
    }

    // The last child of the row before a place.
    fn last_before(&self, end: usize) -> Option<(&Sub, &Node)>
        requires { end ≤ length self.now.row.items }
        ensures { IsLast (live (take end self.now.row.items)) result }
    {
        let mut at = end;
        while at > 0 {
            at -= 1;
            let place = &self.row[at];
            if !place.1.is_empty() {
                return Some((&place.0, &place.1));
            }
        }
        None
    }

    /// The first child.
    pub fn first(&self) -> Option<(&Sub, &Node)>
        requires { IsOrdered self.now.row.items self.now.others.entries }
        ensures { IsFirst (live (all_of self.now)) result }
    {
        match self.next_from(0) {
            Some(child) => Some(child),
            None => self.others.iter().next(),
        }
    }

    /// The last child.
    pub fn last(&self) -> Option<(&Sub, &Node)>
        requires { IsOrdered self.now.row.items self.now.others.entries }
        ensures { IsLast (live (all_of self.now)) result }
    {
        match self.others.iter().next_back() {
            Some(child) => Some(child),
            None => self.last_before(self.row.len()),
        }
    }

    /// The first child after a subscript.
    pub fn after(&self, sub: &Sub) -> Option<(&Sub, &Node)>
        requires { IsOrdered self.now.row.items self.now.others.entries }
        ensures { IsFirst (beyond subscript_cmp sub.now (live (all_of self.now))) result }
    {
        let (_, from) = self.span(sub);
        match self.next_from(from) {
            Some(child) => Some(child),
            None => {
                let mut later = self.others.range((Bound::Excluded(sub), Bound::Unbounded));
                later.next()
            }
        }
    }

    /// The last child before a subscript.
    pub fn before(&self, sub: &Sub) -> Option<(&Sub, &Node)>
        requires { IsOrdered self.now.row.items self.now.others.entries }
        ensures { IsLast (earlier subscript_cmp sub.now (live (all_of self.now))) result }
    {
        let mut sooner = self.others.range(..sub);
        match sooner.next_back() {
            Some(child) => Some(child),
            None => {
                let (end, _) = self.span(sub);
                self.last_before(end)
            }
        }
    }

    /// All places of the row, and then the other children.
    pub fn iter(&self) -> Steps<'_>
        ensures { steps_rest result ≡ all_of self.now }
    {
        Steps {
            row: self.row.iter(),
            others: self.others.iter(),
        }
    }

    /// Whether no place and no child is left.
    pub fn is_empty(&self) -> bool
        ensures { IsTrue result ↔ (all_of self.now ≡ []) }
    {
        self.row.is_empty() && self.others.is_empty()
    }

    /// Adds a child at a subscript at which there is no place of the row and no other child.
    pub fn add(&mut self, alloc: Global, sub: &Sub, child: Node) -> Result<(), AllocError>
        requires { CanAdd self.old sub.now child }
        ensures { Adds self.old self.new sub.now child result }
    {
        if self.is_ahead(sub) {
            return self.add_ahead(alloc, sub, child);
        }
        self.add_behind(alloc, sub, child)
    }

    // Adds a child that comes behind the row.
    fn add_behind(&mut self, alloc: Global, sub: &Sub, child: Node) -> Result<(), AllocError>
        requires can { CanAdd self.old sub.now child }
        requires behind { AllBefore subscript_cmp sub.now self.old.row.items }
        ensures { Adds self.old self.new sub.now child result }
    {
        match self.gap_behind(sub) {
            None => self.add_other(sub, child),
            Some((number, gap)) => {
                let sub = sub.try_clone()?;
                self.row.reserve(gap + 1)?;
                self.grow_behind(alloc, number, gap, sub, child);
                Ok(())
            }
        }
    }

    // Adds a child that comes before the row.
    fn add_ahead(&mut self, alloc: Global, sub: &Sub, child: Node) -> Result<(), AllocError>
        requires can { CanAdd self.old sub.now child }
        requires ahead { is_ahead sub.now self.old.row.items ≡ true }
        ensures { Adds self.old self.new sub.now child result }
    {
        match self.gap_ahead(sub) {
            None => {
                self.spill(0)?;
                self.add_other(sub, child)
            }
            Some((number, gap)) => {
                let sub = sub.try_clone()?;
                self.row.reserve(gap + 1)?;
                self.grow_ahead(alloc, number, gap, sub, child);
                Ok(())
            }
        }
    }

    // The number of a subscript that the row may grow to, and how many numbers are between them.
    fn gap_behind(&self, sub: &Sub) -> Option<(Num, usize)>
        requires ordered { IsOrdered self.now.row.items self.now.others.entries }
        requires behind { AllBefore subscript_cmp sub.now self.now.row.items }
        ensures end { IfSome result (λ g.
            IsNumber sub.now g.0 × IsEnd self.now.row.items g.1 g.0 × T (below_all subscript_cmp sub.now self.now.others.entries)) }
        ensures room { IfSome result (λ g. g.1 < SHORT_ROW) }
    {
        let number = sub.number()?;
        if !self.is_before_others(sub) {
            return None;
        }
        let gap = self.behind(number);
        if self.is_near(gap) {
            Some((number, gap))
        } else {
            None
        }
    }

    // How many numbers are between the row and a number behind it.
    fn behind(&self, number: Num) -> usize
        requires row { IsRow self.now.row.items }
        requires past { IsPast number self.now.row.items }
        ensures { IsEnd self.now.row.items result number }
    {
        match self.start() {
            None => 0,
            Some(first) => (number.value() - first.value()) as usize - self.row.len(),
        }
    }

    // The number of a subscript that the row may grow to, and how many numbers are between them.
    fn gap_ahead(&self, sub: &Sub) -> Option<(Num, usize)>
        requires row { IsRow self.now.row.items }
        requires ahead { is_ahead sub.now self.now.row.items ≡ true }
        ensures ahead { IfSome result (λ g. IsNumber sub.now g.0 × IsAhead self.now.row.items g.1 g.0) }
        ensures room { IfSome result (λ g. g.1 < SHORT_ROW) }
    {
        let number = sub.number()?;
        let first = self.start()?;
        let gap = (first.value() - number.value()) as usize - 1;
        if self.is_near(gap) {
            Some((number, gap))
        } else {
            None
        }
    }

    // Whether the row may grow over so many empty places.
    fn is_near(&self, gap: usize) -> bool
        ensures { result ≡ true → gap < SHORT_ROW }
    {
        gap <= 1 || (gap < SHORT_ROW && self.row.len() < SHORT_ROW - gap)
    }

    // Whether a subscript stands before all children of the map.
    fn is_before_others(&self, sub: &Sub) -> bool
        requires { T (is_sorted subscript_cmp self.now.others.entries) }
        ensures { result ≡ true → T (below_all subscript_cmp sub.now self.now.others.entries) }
    {
        match self.others.iter().next() {
            None => true,
            Some(child) => sub.cmp(child.0).is_lt(),
        }
    }

    // Adds a child that comes behind the row to the map.
    fn add_other(&mut self, sub: &Sub, child: Node) -> Result<(), AllocError>
        requires can { CanAdd self.old sub.now child }
        requires behind { AllBefore subscript_cmp sub.now self.old.row.items }
        ensures { Adds self.old self.new sub.now child result }
    {
        put(&mut self.others, sub, child)
    }

    // Puts a child of this number behind the row, with so many empty places between them. There is room for them.
    fn grow_behind(&mut self, alloc: Global, number: Num, gap: usize, sub: Sub, child: Node)
        requires room { deque_len self.old.row + gap < deque_capacity self.old.row }
        requires sound { IsSound self.old }
        requires filled { 0 < length child }
        requires number { IsNumber sub number }
        requires end { IsEnd self.old.row.items gap number }
        requires others { T (below_all subscript_cmp sub self.old.others.entries) }
        ensures sound { IsSound self.new }
        ensures added { live (all_of self.new) ≡ insert_entry subscript_cmp (live (all_of self.old)) sub child }
    {
        if gap == 0 {
            self.row.push_back_reserved((sub, child));
            return;
        }
        let place = empty_place(alloc, number.value() - gap as i64);
        self.row.push_back_reserved(place);
        self.grow_behind(alloc, number, gap - 1, sub, child);
    }

    // Puts a child of this number before the row, with so many empty places between them. There is room for them.
    fn grow_ahead(&mut self, alloc: Global, number: Num, gap: usize, sub: Sub, child: Node)
        requires room { deque_len self.old.row + gap < deque_capacity self.old.row }
        requires ordered { IsOrdered self.old.row.items self.old.others.entries }
        requires filled { 0 < length child }
        requires number { IsNumber sub number }
        requires ahead { IsAhead self.old.row.items gap number }
        ensures sound { IsSound self.new }
        ensures added { live (all_of self.new) ≡ insert_entry subscript_cmp (live (all_of self.old)) sub child }
    {
        if gap == 0 {
            self.row.push_front_reserved((sub, child));
            return;
        }
        let place = empty_place(alloc, number.value() + gap as i64);
        self.row.push_front_reserved(place);
        self.grow_ahead(alloc, number, gap - 1, sub, child);
    }

    /// After the child at a place went: what lies behind a wide gap goes to the map, and empty places at the ends of the row go.
    pub fn trim(&mut self, at: usize)
        requires within { at < length self.old.row.items }
        requires ordered { IsOrdered self.old.row.items self.old.others.entries }
        requires head { 0 < at → IsTrimmed self.old.row.items }
        ensures sound { IsSound self.new }
        ensures same { live (all_of self.new) ≡ live (all_of self.old) }
    {
        if at == 0 {
            self.trim_front();
            return;
        }
        if at + 1 < self.row.len() && self.is_wide(at) {
            // Where memory is refused the rest stays.
            let _refused = self.spill(at);
            self.trim_back();
            return;
        }
        self.trim_back();
    }

    // Takes empty places at the front of the row out.
    fn trim_front(&mut self)
        requires { IsOrdered self.old.row.items self.old.others.entries }
        ensures sound { IsSound self.new }
        ensures same { live (all_of self.new) ≡ live (all_of self.old) }
    {
        while let Some(first) = self.row.front() {
            if !first.1.is_empty() {
                return;
            }
            let _gone = self.row.pop_front();
        }
    }

    // Takes empty places at the back of the row out.
    fn trim_back(&mut self)
        requires { IsSound self.old }
        ensures sound { IsSound self.new }
        ensures same { live (all_of self.new) ≡ live (all_of self.old) }
    {
        while let Some(last) = self.row.back() {
            if !last.1.is_empty() {
                return;
            }
            let _gone = self.row.pop_back();
        }
    }

    // Whether so many places are empty around this one that they part the row.
    fn is_wide(&self, at: usize) -> bool
        requires { at < deque_len self.now.row }
    {
        let mut end = at;
        while end < self.row.len() && end - at < GAP_LIMIT && self.row[end].1.is_empty() {
            end += 1;
        }
        let mut start = at;
        while start > 0 && end - start < GAP_LIMIT && self.row[start - 1].1.is_empty() {
            start -= 1;
        }
        end - start >= GAP_LIMIT
    }

    // Moves what lies in the row from a place on to the map. Where memory is refused the rest stays.
    fn spill(&mut self, keep: usize) -> Result<(), AllocError>
        requires { IsSound self.old }
        ensures sound { IsSound self.new }
        ensures same { live (all_of self.new) ≡ live (all_of self.old) }
        ensures kept { OnOk result (length self.new.row.items ≤ keep) }
    {
        while self.row.len() > keep {
            self.spill_last()?;
        }
        self.row.shrink_to_fit();
        Ok(())
    }

    // Moves the last place of the row to the map, or takes it where it holds nothing. Where memory is refused it stays.
    fn spill_last(&mut self) -> Result<(), AllocError>
        requires { IsSound self.old }
        ensures sound { IsSound self.new }
        ensures same { live (all_of self.new) ≡ live (all_of self.old) }
        ensures shorter { OnOk result (0 < deque_len self.old.row → deque_len self.new.row < deque_len self.old.row) }
    {
        let Some((sub, child)) = self.row.pop_back() else {
            return Ok(());
        };
        if child.is_empty() {
            return Ok(());
        }
        match self.others.insert(sub, child) {
            Ok(_) => Ok(()),
            Err(refused) => {
                self.row.push_back_reserved(refused.value);
                Err(AllocError)
            }
        }
    }
}

/// The places of a row, and then the children of a map.
#[derive(Drop)]
pub struct Steps<'a> {
    row: vec_deque::Iter<'a, (Sub, Node)>,
    others: btree_map::Iter<'a, Sub, Node>,
}

impl<'a> Iterator for Steps<'a> {
    type Item = (&'a Sub, &'a Node);

    ghost use Rattle.std.specs.Iterator.{YieldsFirstBy, item_count};
    ghost use Rattle.std.specs.Map.Iter.{deref_pair};
    ghost use Rattle.mj_tree.specs.Steps.{steps_rest};

    ghost next_gives = { YieldsFirstBy deref_pair steps_rest };

    ghost remaining = { item_count steps_rest };

    fn next(&mut self) -> Option<(&'a Sub, &'a Node)> {
        match self.row.next() {
            Some(place) => Some((&place.0, &place.1)),
            None => self.others.next(),
        }
    }
}

// A place of this number that holds nothing.
fn empty_place(alloc: Global, number: i64) -> (Sub, Node)
    requires { IsInRange number }
    ensures number { IsNumber result.0 number }
    ensures empty { result.1 ≡ [] }
{
    (
        Sub::from_text(Text::from_number(alloc, number)),
        Node::new(alloc),
    )
}

/// Puts a child into a map, in place of that at its subscript if there is one.
pub fn put(others: &mut BTreeMap<Sub, Node>, sub: &Sub, child: Node) -> Result<(), AllocError>
    ensures ok { OnOk result (others.new.entries ≡ insert_entry subscript_cmp others.old.entries sub.now child) }
    ensures err { OnErr result (others.new.entries ≡ others.old.entries) }
{
    others.insert(sub.try_clone()?, child)?;
    Ok(())
}

/// Children that are kept as long as there are any.
pub fn kept(children: Box<Children>) -> Option<Box<Children>>
    requires { IsSound children.value }
    ensures places { places result ≡ all_of children.value }
    ensures sound { AreSound result }
{
    if children.is_empty() {
        return None;
    }
    Some(children)
}
