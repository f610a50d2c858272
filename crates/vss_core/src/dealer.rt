//! A dealer.

ghost use Rattle.std.specs.Prelude.{◌≡◌, ℕ, ◌+◌, ◌-◌, ◌*◌, ◌<◌, ◌≤◌, List, [], ◌++◌, length, IfOk, get_or, Bool, Option};
ghost use Rattle.algebra61.specs.Field.{Fp};
ghost use Rattle.sharing61.specs.Count.{anyone};
ghost use Rattle.sizes.specs.Instances.{instance_at};
ghost use Rattle.sharing61.specs.Rules.{Pair, pair_on, crossing_on, off_grid, reveal_of};
ghost use Rattle.talk.specs.Shape.{Shape, seats, instances};
ghost use Rattle.plays.specs.Said.{dealt_list, pair_list, reveal_item, reveal_list};
ghost use Rattle.plays.specs.Seat.{heard_complaint, reveals};
ghost use Rattle.vss_core.specs.States.{DealerState, IsDealer, IsReceiver, FiveGrids, RoundPosts, lane_items};

use crate::PolyPair;
use crate::complaints::ComplaintTables;
use crate::pairs::{padded, push_padded};
use bivar61::{Grid, GridList};
use field61::{Fe, FeList};
use lists::OutOfMemory;
use sharing61::Crossing;
use sizes::Instance;
use std::alloc::Global;
use std::marker::Model;
use talk::{PostList, Reveal, RevealList, Setting};

/// A dealer: one grid for each of the five lanes. Contracts see its setting, its index and its grids.
#[derive(Drop)]
pub struct Dealer {
    setting: Setting,
    me: u32,
    grids: GridList,
}

impl Model for Dealer {
    ghost use Rattle.vss_core.specs.States.{DealerState, dealer_code, IsDealer, FiveGrids};

    ghost Value = { DealerState };

    ghost coded = { dealer_code };

    ghost view = { λ d. record { shape = d.setting; me = d.me; grids = d.grids } };

    ghost invariant = { λ d. IsDealer d.setting d.me × FiveGrids d.setting.degree d.grids };
}

impl Dealer {
    /// The dealer `me` with these grids, lane by lane, all of the setting's degree.
    pub fn new(setting: Setting, me: u32, grids: GridList) -> Dealer
        requires dealer { IsDealer setting me }
        requires grids { FiveGrids setting.degree grids }
        ensures { result ≡ record { shape = setting; me = me; grids = grids } }
    {
        Dealer { setting, me, grids }
    }

    /// The setting of its phase.
    pub fn setting(&self) -> &Setting
        ensures { result.now ≡ self.now.shape }
    {
        &self.setting
    }

    /// What goes to a receiver in the first round: lane by lane the coefficients of its row and of its column.
    pub fn deal_for(&self, alloc: Global, receiver: u32) -> Result<FeList, OutOfMemory>
        requires { IsReceiver self.now.shape receiver }
        ensures { IfOk result
            (λ l. l ≡ dealt_list self.now.shape.degree (λ k. pair_on (get_or self.now.grids k []) receiver)) }
    {
        dealt_to(alloc, &self.grids, self.setting.degree() as usize, receiver)
    }

    /// What it posts in the fourth round, from the posts of the third: the pair of each receiver that told, in a
    /// complaint, values other than its grid's.
    pub fn reveals(&self, alloc: Global, posts: &PostList) -> Result<RevealList, OutOfMemory>
        requires { length posts.now ≡ seats self.now.shape }
        ensures { IfOk result
            (λ l. l ≡ reveal_list self.now.shape.degree self.now.shape.receivers
            (reveals self.now.shape self.now.grids posts.now self.now.me)) }
    {
        let told = ComplaintTables::new(alloc, self.setting.instances(), posts)?;
        self.all_reveals(alloc, &told)
    }

    /// The pair of a receiver in a lane.
    pub fn pair_for(&self, alloc: Global, lane: u32, receiver: u32) -> Result<PolyPair, OutOfMemory>
        requires { lane < 5 }
        ensures { IfOk result (λ p. p ≡ pair_on (get_or self.now.grids lane []) receiver) }
    {
        PolyPair::on_grid(alloc, self.grids.at(lane as usize), receiver)
    }

    // The reveals of all lanes.
    fn all_reveals(
        &self,
        alloc: Global,
        posts: &ComplaintTables<'_>,
    ) -> Result<RevealList, OutOfMemory>
        requires { length posts.now ≡ seats self.now.shape }
        ensures { IfOk result
            (λ l. l ≡ reveal_list self.now.shape.degree self.now.shape.receivers
            (reveals self.now.shape self.now.grids posts.now self.now.me)) }
    {
        let mut list = RevealList::new(alloc);
        for lane in 0..5 {
            self.reveal_lane(alloc, posts, lane, &mut list)?;
        }
        Ok(list)
    }

    // The reveals of a lane, at the end of the list.
    fn reveal_lane(
        &self,
        alloc: Global,
        posts: &ComplaintTables<'_>,
        lane: u32,
        list: &mut RevealList,
    ) -> Result<(), OutOfMemory>
        requires lane { lane < 5 }
        requires all { length posts.now ≡ seats self.now.shape }
        ensures { IfOk result
            (λ _. list.new ≡ list.old ++ lane_items self.now.shape self.now.me
            (get_or self.now.grids lane []) posts.now lane self.now.shape.receivers) }
    {
        for j in 1..self.setting().receivers() + 1 {
            self.reveal_one(alloc, posts, lane, j, list)?;
        }
        Ok(())
    }

    // The reveal of a receiver in a lane, where it is to be revealed, at the end of the list.
    fn reveal_one(
        &self,
        alloc: Global,
        posts: &ComplaintTables<'_>,
        lane: u32,
        receiver: u32,
        list: &mut RevealList,
    ) -> Result<(), OutOfMemory>
        requires lane { lane < 5 }
        requires receiver { IsReceiver self.now.shape receiver }
        requires all { length posts.now ≡ seats self.now.shape }
        ensures { IfOk result
            (λ _. list.new ≡ list.old ++ reveal_item self.now.shape.degree lane receiver
            (reveal_of self.now.shape.receivers (get_or self.now.grids lane [])
            (heard_complaint self.now.shape posts.now (instance_at self.now.me lane) receiver) receiver)) }
    {
        let dealers = self.setting.dealers();
        prove!(self.me <= dealers);
        let grid = self.grids.at(lane as usize);
        let dealer = self.me;
        let instance = Instance { dealer, lane }.number();
        if tells_off(&self.setting, grid, posts, instance, receiver) {
            return push_reveal(
                alloc,
                list,
                grid,
                self.setting.degree() as usize,
                lane,
                receiver,
            );
        }
        Ok(())
    }
}

// What goes to a receiver, of a degree.
fn dealt_to(
    alloc: Global,
    grids: &GridList,
    degree: usize,
    receiver: u32,
) -> Result<FeList, OutOfMemory>
    requires five { length grids.now ≡ 5 }
    requires degree { degree ≤ 4 }
    ensures { IfOk result (λ l. l ≡ dealt_list degree (λ k. pair_on (get_or grids.now k []) receiver)) }
{
    let mut list = FeList::new(alloc);
    for lane in 0..5 {
        push_pair(alloc, &mut list, grids.at(lane), degree, receiver)?;
    }
    Ok(list)
}

// The coefficients of a receiver's row and column of a grid of a degree, at the end of the list.
fn push_pair(
    alloc: Global,
    list: &mut FeList,
    grid: &Grid,
    degree: usize,
    receiver: u32,
) -> Result<(), OutOfMemory>
    requires { degree ≤ 4 }
    ensures { IfOk result (λ _. list.new ≡ list.old ++ pair_list degree (pair_on grid.now receiver)) }
{
    let pair = PolyPair::on_grid(alloc, grid, receiver)?;
    push_padded(list, pair.row(), degree + 1)?;
    push_padded(list, pair.column(), degree + 1)
}

// The pair of a receiver on a grid of a degree, at the end of the list.
fn push_reveal(
    alloc: Global,
    list: &mut RevealList,
    grid: &Grid,
    degree: usize,
    lane: u32,
    receiver: u32,
) -> Result<(), OutOfMemory>
    requires { degree ≤ 4 }
    ensures { IfOk result
        (λ _. list.new ≡ list.old ++ reveal_item degree lane receiver (Option.Some (pair_on grid.now receiver))) }
{
    let pair = PolyPair::on_grid(alloc, grid, receiver)?;
    list.push(Reveal {
        lane,
        receiver,
        row: padded(alloc, pair.row(), degree + 1)?,
        column: padded(alloc, pair.column(), degree + 1)?,
    })
}

// Whether some complaint of a receiver in an instance tells values other than the grid's.
fn tells_off(
    setting: &Setting,
    grid: &Grid,
    posts: &ComplaintTables<'_>,
    instance: u32,
    receiver: u32,
) -> bool
    requires receiver { IsReceiver setting.now receiver }
    requires all { length posts.now ≡ seats setting.now }
    ensures { result ≡ anyone setting.now.receivers
        (λ k. off_grid grid.now receiver k (heard_complaint setting.now posts.now instance receiver k)) }
{
    let seat = setting.seat_of(receiver);
    let mut off = false;
    for k in 1..setting.receivers() + 1 {
        off = off || is_off(grid, receiver, k, posts.complaint(seat, instance, k));
    }
    off
}

// Whether a complaint of a receiver against another one tells values other than the grid's.
fn is_off(grid: &Grid, receiver: u32, other: u32, told: Option<Crossing>) -> bool
    ensures { result ≡ off_grid grid.now receiver other told }
{
    match told {
        None => false,
        Some(told) => {
            let x = Fe::reduce(u64::from(receiver));
            let y = Fe::reduce(u64::from(other));
            told.row != grid.at(y, x) || told.column != grid.at(x, y)
        }
    }
}
