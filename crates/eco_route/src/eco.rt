//! A routed design, as it is edited.

use crate::edit_fault::EditFault;
use crate::edit_refusal::EditRefusal;
use crate::net_index::NetIndex;
use crate::net_lists::{push_net, remove_net, set_net};
use crate::net_router::NetRouter;
use crate::opening::{count_terminals, loaded_router};
use crate::wiring::{Wish, wired};
use edit_text::{Edit, Pin};
use grid_base::NoMemory;
use grid_graph::{Design, Ground, NetSpec, UnreachableNet};
use std::alloc::Global;
use std::marker::Model;
use tree_set::Tree;

/// A design and a set for each of its nets, which edits change net by net.
#[derive(Drop)]
pub struct Eco {
    design: Design,
    trees: Vec<Tree>,
    index: NetIndex,
    terminals: usize,
    router: NetRouter,
}

impl Model for Eco {
    ghost use Rattle.eco_route.specs.EcoStates.{IsEco};
    ghost use Rattle.eco_route.specs.RoutedDesigns.{RoutedDesign};

    ghost Value = { RoutedDesign };

    ghost view = { λ s. record { design = s.design; sets = s.trees.items } };

    ghost invariant = { λ s. IsEco s.design.grid s.design.nets s.trees.items s.index s.terminals s.router };
}

impl Eco {
    ghost use Rattle.std.specs.Prelude.{◌≡◌, ◌<◌, ◌≤◌, ◌+◌, ◌++◌, ◌∷◌, [], ℕ, IfOk, IfErr, OnOk, OnErr, length, slice_index};
    ghost use Rattle.std.specs.List.{remove};
    ghost use Rattle.grid_base.specs.Lists.{At};
    ghost use Rattle.grid_graph.specs.declared.net_spec.NetSpec.{NetSpec as NetSpecOf};
    ghost use Rattle.grid_graph.specs.Grounds.{IsGround, IsCutOff};
    ghost use Rattle.grid_graph.specs.Limits.{max_nets, max_pins};
    ghost use Rattle.grid_graph.specs.Nets.{IsNet};
    ghost use Rattle.tree_set.specs.Routings.{ArePieces};
    ghost use Rattle.edit_text.specs.EditRanges.{IsEditInRange, IsNetInRange};
    ghost use Rattle.edit_text.specs.declared.edit.Edit.TheVariants as edit;
    ghost use Rattle.grid_graph.specs.Grids.{edge_numbers, size_of};
    ghost use Rattle.tree_set.specs.Loads.{load};
    ghost use Rattle.tree_set.specs.Measures.{wirelength};
    ghost use Rattle.eco_route.specs.EcoStates.{AreSetsOf};
    ghost use Rattle.eco_route.specs.EcoSteps.{IsEcoStep, IsDropStep, IsAddStep, IsChangeStep};
    ghost use Rattle.eco_route.specs.RoutedDesigns.{IsRewired, IsUnchanged};
    ghost use Rattle.eco_route.specs.declared.edit_fault.EditFault.TheVariants.{UnknownId};
    ghost use Rattle.eco_route.specs.NetIndices.{ids_of};
    ghost use Rattle.eco_route.specs.EditRefusals.{HasNoNet, IsEditAccepted, IsEditRefusal, terminals_of};

    /// An eco of a routed design. The error is want of memory, and hands both back.
    pub fn open(alloc: Global, design: Design, trees: Vec<Tree>) -> Result<Eco, (Design, Vec<Tree>)>
        requires { AreSetsOf design.grid design.nets trees.items }
        ensures design { IfOk result (λ eco. eco.design ≡ design) }
        ensures trees { IfOk result (λ eco. eco.sets ≡ trees.items) }
        ensures design_back { IfErr result (λ back. back.0 ≡ design) }
        ensures trees_back { IfErr result (λ back. back.1.items ≡ trees.items) }
    {
        let terminals = count_terminals(design.nets.list());
        let Ok(index) = NetIndex::of(alloc, design.nets.list()) else {
            return Err((design, trees));
        };
        let Ok(router) = loaded_router(alloc, &design, trees.as_slice()) else {
            return Err((design, trees));
        };
        Ok(Eco {
            design,
            trees,
            index,
            terminals,
            router,
        })
    }

    /// Makes an edit whose numbers are in their ranges. After a refusal all is as before.
    pub fn apply(&mut self, edit: &Edit) -> Result<(), EditRefusal>
        requires { IsEditInRange edit.now }
        ensures step { OnOk result (IsEcoStep edit.now self.old.design self.old.sets self.new.design self.new.sets) }
        ensures accepted { OnOk result (IsEditAccepted self.old.design edit.now) }
        ensures refusal { IfErr result (IsEditRefusal self.old.design edit.now) }
        ensures as_before { OnErr result (IsUnchanged self.old self.new) }
    {
        match edit {
            Edit::Drop { id } => self.drop_net(*id),
            Edit::Add {
                name,
                id,
                width,
                pins,
            } => self.add_net(name.list(), *id, *width, pins.list()),
            Edit::Change { id, width, pins } => self.change_net(*id, *width, pins.list()),
        }
    }

    /// The design as it now stands.
    pub fn design(&self) -> &Design
        ensures { result.now ≡ self.now.design }
    {
        &self.design
    }

    /// The set of each net as it now stands.
    pub fn trees(&self) -> &[Tree]
        ensures sets { result.now ≡ self.now.sets }
        ensures of_design { AreSetsOf self.now.design.grid self.now.design.nets result.now }
    {
        self.trees.as_slice()
    }

    /// The load of each edge number as it now stands.
    pub fn loads(&self) -> &[u64]
        ensures long { length result.now ≡ edge_numbers self.now.design.grid }
        ensures loads { (e : ℕ) → slice_index result.now e ≡ load self.now.design.grid self.now.design.nets self.now.sets e }
    {
        let edges = 2 * self.design.grid.size().vertices() as usize;
        &self.router.loads()[..edges]
    }

    /// The number of pieces of all sets as they now stand.
    pub fn wirelength(&self) -> u64
        ensures { result ≡ wirelength self.now.sets }
    {
        let edges = 2 * self.design.grid.size().vertices() as usize;
        self.router.loads()[edges]
    }

    /// The ground of the net at this place of the list. The error is a net that no ground joins.
    pub fn ground_of(&self, place: usize) -> Result<Ground, UnreachableNet>
        requires { place < length self.now.design.nets }
        ensures found { (n : NetSpecOf) → At self.now.design.nets place n → IfOk result (IsGround self.now.design.grid n.terminals) }
        ensures cause { (n : NetSpecOf) → At self.now.design.nets place n → IfErr result (λ e. IsCutOff self.now.design.grid n e.id e.terminal) }
    {
        let design = &self.design;
        self.router
            .ground_of(&design.grid, &design.nets.list()[place])
    }

    /// The place of the net with this id.
    fn place_of(&self, id: u32) -> Result<usize, EditFault>
        ensures found { IfOk result (λ place. At (ids_of self.now.design.nets) place id) }
        ensures unknown { IfErr result (λ fault. fault ≡ UnknownId id) }
        ensures free { OnErr result (HasNoNet self.now.design.nets id) }
    {
        self.index.place_of(id).ok_or(EditFault::UnknownId { id })
    }

    /// The net with this id goes.
    fn drop_net(&mut self, id: u32) -> Result<(), EditRefusal>
        ensures step { OnOk result (IsDropStep id self.old.design self.old.sets self.new.design self.new.sets) }
        ensures accepted { OnOk result (IsEditAccepted self.old.design (edit.Drop id)) }
        ensures refusal { IfErr result (IsEditRefusal self.old.design (edit.Drop id)) }
        ensures as_before { OnErr result (IsUnchanged self.old self.new) }
    {
        let place = self.place_of(id)?;
        let alloc = *self.trees.allocator();
        let design = &self.design;
        let net = &design.nets.list()[place];
        self.terminals -= net.terminals.list().len();
        self.router
            .forget(alloc, &design.grid, net.width, &self.trees[place]);
        self.index.remove(id, place);
        self.trees.remove(place);
        remove_net(alloc, &mut self.design.nets, place);
        Ok(())
    }

    /// A net comes behind all others.
    fn add_net(&mut self, name: &[u8], id: u32, width: u32, pins: &[Pin]) -> Result<(), EditRefusal>
        requires { IsNetInRange id width pins.now }
        ensures step { OnOk result (IsAddStep name.now id width pins.now self.old.design self.old.sets self.new.design self.new.sets) }
        ensures accepted { OnOk result (IsEditAccepted self.old.design (edit.Add name.now id width pins.now)) }
        ensures refusal { IfErr result (IsEditRefusal self.old.design (edit.Add name.now id width pins.now)) }
        ensures as_before { OnErr result (IsUnchanged self.old self.new) }
    {
        if self.place_of(id).is_ok() {
            return Err(EditRefusal::Fault(EditFault::DuplicateId { id }));
        }
        let alloc = *self.trees.allocator();
        let wish = Wish {
            name,
            id,
            width,
            pins,
            nets: self.trees.len() + 1,
            others: self.terminals,
        };
        let design = &self.design;
        let (net, over) = wired(alloc, &design.grid, &self.router, &wish)?;
        let tree = self.router.route(alloc, &design.grid, &net, over)?;
        self.append(alloc, net, tree)?;
        Ok(())
    }

    /// The net and its set come behind all others.
    fn append(&mut self, alloc: Global, net: NetSpec, tree: Tree) -> Result<(), NoMemory>
        requires net { IsNet self.old.design.grid net }
        requires free { HasNoNet self.old.design.nets net.id }
        requires count { length self.old.design.nets + 1 ≤ max_nets }
        requires pins { terminals_of self.old.design.nets + length net.terminals ≤ max_pins }
        requires pieces { ArePieces (size_of self.old.design.grid) tree }
        ensures grid { OnOk result (self.new.design.grid ≡ self.old.design.grid) }
        ensures nets { OnOk result (self.new.design.nets ≡ self.old.design.nets ++ net ∷ []) }
        ensures sets { OnOk result (self.new.sets ≡ self.old.sets ++ tree ∷ []) }
        ensures as_before { OnErr result (IsUnchanged self.old self.new) }
    {
        let width = net.width;
        let terminals = net.terminals.list().len();
        let id = net.id;
        let place = self.trees.len();
        self.trees.reserve(1)?;
        self.index.push(id)?;
        if push_net(alloc, &mut self.design.nets, net).is_err() {
            self.index.remove(id, place);
            return Err(NoMemory);
        }
        self.router.notice(alloc, &self.design.grid, width, &tree);
        self.trees.push_reserved(tree);
        self.terminals += terminals;
        Ok(())
    }

    /// The net with this id gets another width and other pins.
    fn change_net(&mut self, id: u32, width: u32, pins: &[Pin]) -> Result<(), EditRefusal>
        requires { IsNetInRange id width pins.now }
        ensures step { OnOk result (IsChangeStep id width pins.now self.old.design self.old.sets self.new.design self.new.sets) }
        ensures accepted { OnOk result (IsEditAccepted self.old.design (edit.Change id width pins.now)) }
        ensures refusal { IfErr result (IsEditRefusal self.old.design (edit.Change id width pins.now)) }
        ensures as_before { OnErr result (IsUnchanged self.old self.new) }
    {
        let place = self.place_of(id)?;
        let alloc = *self.trees.allocator();
        let design = &self.design;
        let before = &design.nets.list()[place];
        let wish = Wish {
            name: before.name.list(),
            id,
            width,
            pins,
            nets: self.trees.len(),
            others: self.terminals - before.terminals.list().len(),
        };
        let (net, over) = wired(alloc, &design.grid, &self.router, &wish)?;
        self.rewire(alloc, place, net, over)?;
        Ok(())
    }

    /// The net comes in place of the one at this place, and gets a set from the load of all others.
    fn rewire(
        &mut self,
        alloc: Global,
        place: usize,
        net: NetSpec,
        over: Ground,
    ) -> Result<(), NoMemory>
        requires place { place < length self.old.design.nets }
        requires net { IsNet self.old.design.grid net }
        requires same { (n : NetSpecOf) → At self.old.design.nets place n → n.id ≡ net.id }
        requires pins { terminals_of (remove self.old.design.nets place) + length net.terminals ≤ max_pins }
        requires ground { IsGround self.old.design.grid net.terminals over }
        ensures rewired { OnOk result (IsRewired place net self.old self.new) }
        ensures as_before { OnErr result (IsUnchanged self.old self.new) }
    {
        let design = &self.design;
        let before = &design.nets.list()[place];
        let had = before.terminals.list().len();
        let tree = self.router.reroute(
            alloc,
            &design.grid,
            before.width,
            &self.trees[place],
            &net,
            over,
        )?;
        self.terminals = self.terminals - had + net.terminals.list().len();
        self.trees[place] = tree;
        set_net(alloc, &mut self.design.nets, place, net);
        Ok(())
    }
}
