//! Net bounds, found class by class.

ghost use Rattle.std.specs.Prelude.{◌≡◌, ◌<◌, ◌^◌, length};
ghost use Rattle.std.specs.List.{sum};

use crate::bound_labels::BoundLabels;
use crate::class_order::{ClassedNet, nets_by_class};
use crate::priced::Priced;
use grid_base::{NoMemory, Size};
use lower_bound::ClassCosts;
use shortest_paths::Labels;
use std::alloc::Global;
use steiner_exact::TreeLabels;
use steiner_tables::ROOTED_MASKS;

/// The sum of numbers.
pub fn total_of(numbers: &[u64]) -> u128
    requires { length numbers.now < 2 ^ 64 }
    ensures { result ≡ sum numbers.now }
{
    let mut total: u128 = 0;
    for number in numbers {
        total += u128::from(*number);
    }
    total
}

impl Priced<'_> {
    ghost use Rattle.std.specs.Prelude.{◌≡◌, ◌+◌, ◌≤◌, ◌<◌, All, length, IfOk};
    ghost use Rattle.std.specs.List.{slice_range};
    ghost use Rattle.grid_base.specs.Limits.{max_vertices};
    ghost use Rattle.grid_base.specs.Lists.{At};
    ghost use Rattle.grid_graph.specs.declared.net_spec.NetSpec.{NetSpec};
    ghost use Rattle.grid_graph.specs.Flat.{IsFlatOf};
    ghost use Rattle.grid_graph.specs.Grids.{size_of};
    ghost use Rattle.lower_bound.specs.declared.class_costs.ClassCosts.{ClassCosts as Class};
    ghost use Rattle.lower_bound.specs.ClassWords.{tiles_size};
    ghost use Rattle.dual_bound.specs.Classes.{IsClassOf, ServesClass};
    ghost use Rattle.dual_bound.specs.ClassOrders.{IsPlaceOf, HasBoundOf};
    ghost use Rattle.dual_bound.specs.DesignBounds.{IsBoundOfNet};
    ghost use Rattle.dual_bound.specs.Parts.{priced_grid, priced_nets, HasGrounds, IsSumOver};

    /// The net bound of the net at a place, by what its class pays.
    fn bound_of_class(
        &self,
        alloc: Global,
        place: usize,
        costs: &mut ClassCosts<'_>,
        labels: &mut BoundLabels,
    ) -> Result<u64, NoMemory>
        requires grounds { HasGrounds self.now }
        requires place { place < length (priced_nets self.now) }
        requires costs { IsClassOf self.now costs.old }
        requires labels { ServesClass self.now costs.old labels.old }
        ensures bound { IfOk result (λ b. (n : NetSpec) → At (priced_nets self.now) place n → IsBoundOfNet (priced_grid self.now) self.now.prices.now self.now.budget n b) }
        ensures costs { IsClassOf self.now costs.new }
        ensures labels { ServesClass self.now costs.new labels.new }
    {
        let net = &self.design.nets.list()[place];
        costs.renew(net.width, self.grounds[place]);
        match labels {
            BoundLabels::Tiles(labels) => costs.net_bound(alloc, net, labels),
            BoundLabels::Trees(labels) => {
                costs.net_bound_with(alloc, net, self.per_piece(), labels)
            }
        }
    }

    /// Writes the net bounds of these nets, each at the place that it has behind the first one's.
    fn write_bounds(
        &self,
        alloc: Global,
        nets: &[ClassedNet],
        from: usize,
        bounds: &mut [u64],
        costs: &mut ClassCosts<'_>,
        labels: &mut BoundLabels,
    ) -> Result<(), NoMemory>
        requires grounds { HasGrounds self.now }
        requires inside { from + length bounds.old ≤ length (priced_nets self.now) }
        requires places { All (IsPlaceOf from (from + length bounds.old)) nets.now }
        requires costs { IsClassOf self.now costs.old }
        requires labels { ServesClass self.now costs.old labels.old }
        ensures long { length bounds.new ≡ length bounds.old }
        ensures bounds { IfOk result (λ _. All (HasBoundOf self.now from bounds.new) nets.now) }
    {
        for net in nets {
            let place = net.place as usize;
            bounds[place - from] = self.bound_of_class(alloc, place, costs, labels)?;
        }
        Ok(())
    }

    /// Labels for the searches of a class with this flat grid.
    fn labels_for(&self, alloc: Global, flat: Size) -> Result<BoundLabels, NoMemory>
        ensures { IfOk result (λ labels. (c : Class) → tiles_size c ≡ flat → ServesClass self.now c labels) }
    {
        if self.per_piece() > 0 {
            let labels = TreeLabels::new(alloc, self.design.grid.size())?;
            return Ok(BoundLabels::Trees(labels));
        }
        Ok(BoundLabels::Tiles(Labels::new(alloc, flat, ROOTED_MASKS)?))
    }

    /// The sum of the net bounds from a place up to another. Nothing is made where there is no net. Where a piece alone
    /// costs something, vias do, and the searches are on the grid; else they are on the flat grid alone.
    pub fn sum_between(&self, alloc: Global, from: usize, to: usize) -> Result<u128, NoMemory>
        requires grounds { HasGrounds self.now }
        requires order { from ≤ to }
        requires inside { to ≤ length (priced_nets self.now) }
        ensures { IfOk result (IsSumOver self.now (slice_range (priced_nets self.now) from to)) }
    {
        if from == to {
            return Ok(0);
        }
        let nets = nets_by_class(alloc, self.design, self.grounds, from, to)?;
        let mut costs = ClassCosts::new(
            alloc,
            &self.design.grid,
            self.design.nets.list()[from].width,
            self.grounds[from],
            self.prices,
        )?;
        let mut labels = self.labels_for(alloc, costs.size())?;
        let mut bounds = vec![in alloc; 0; to - from]?;
        self.write_bounds(
            alloc,
            nets.as_slice(),
            from,
            bounds.as_mut_slice(),
            &mut costs,
            &mut labels,
        )?;
        Ok(total_of(bounds.as_slice()))
    }

    /// Of how many vertices the labels of a part are.
    pub fn labelled(&self) -> u32
        ensures some { 1 ≤ result }
        ensures most { result ≤ max_vertices }
    {
        let size = self.design.grid.size();
        if self.per_piece() > 0 {
            size.vertices()
        } else {
            size.cols() * size.rows()
        }
    }
}
