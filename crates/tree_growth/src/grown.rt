//! A set that grows from a root.

ghost use Rattle.std.specs.Prelude.{◌≡◌, ◌≤◌, ℕ, length, slice_index};
ghost use Rattle.grid_base.specs.Numbers.{vertices};

use grid_base::{NoMemory, Piece, Size, Vertex};
use grid_graph::{Grid, Ground};
use std::alloc::Global;
use tree_set::Tree;

/// Pieces that were taken in one after another, each with an end that was joined before. The vertices that they join to
/// the root have the present mark.
#[derive(Drop)]
pub(crate) struct Grown {
    size: Size,
    marks: Vec<u32>,
    mark: u32,
    root: Vertex,
    pieces: Vec<Piece>,
    pub ghost one_each: { length marks.items ≡ vertices size },
    pub ghost past: { (v : ℕ) → slice_index marks.items v ≤ mark },
}

impl Grown {
    ghost use Rattle.std.specs.Prelude.{◌≡◌, ◌<◌, ◌+◌, ◌^◌, ◌↔◌, ℕ, [], All, IfOk, IfSome, IsTrue};
    ghost use Rattle.std.specs.Vec.{vec_allocator};
    ghost use Rattle.grid_base.specs.Numbers.{IsVertex, Connects};
    ghost use Rattle.grid_base.specs.Walks.{JoinsList};
    ghost use Rattle.grid_graph.specs.Grids.{size_of, Allows};
    ghost use Rattle.grid_graph.specs.declared.grid.Grid.{Grid};
    ghost use Rattle.grid_graph.specs.declared.ground.Ground.{Ground};
    ghost use Rattle.tree_set.specs.Routings.{KeepsTo};
    ghost use Rattle.tree_growth.specs.Growns.{IsMarked, IsGrown};

    /// Nothing is joined.
    pub(crate) fn new(alloc: Global, size: Size) -> Result<Grown, NoMemory>
        ensures size { IfOk result (λ grown. grown.size ≡ size) }
    {
        Ok(Grown {
            size,
            marks: vec![in alloc; 0; size.vertices() as usize]?,
            mark: 0,
            root: Vertex(0),
            pieces: Vec::new(alloc),
        })
    }

    /// The size of the grid.
    pub(crate) fn size(&self) -> Size
        ensures { result ≡ self.now.size }
    {
        self.size
    }

    /// Makes the marks those of this size.
    pub(crate) fn fit(&mut self, size: Size) -> Result<(), NoMemory>
        ensures { IfOk result (λ _. self.new.size ≡ size) }
    {
        let count = size.vertices() as usize;
        if self.marks.len() != count {
            self.marks = vec![in self.allocator(); 0; count]?;
            self.mark = 0;
        }
        self.size = size;
        Ok(())
    }

    /// The allocator of the lists.
    pub(crate) fn allocator(&self) -> Global
        ensures { result ≡ vec_allocator self.now.marks }
    {
        *self.marks.allocator()
    }

    /// Begins anew with a root.
    pub(crate) fn begin(&mut self, root: Vertex)
        requires root { IsVertex self.old.size root.0 }
        ensures size { self.new.size ≡ self.old.size }
        ensures grown { (g : Grid) (over : Ground) → self.old.size ≡ size_of g → IsGrown g over self.new }
    {
        self.renew();
        self.mark += 1;
        self.marks[root.0 as usize] = self.mark;
        self.root = root;
        self.pieces.clear();
    }

    /// Makes sure that there is a next mark.
    fn renew(&mut self)
        ensures size { self.new.size ≡ self.old.size }
        ensures room { self.new.mark + 1 < 2 ^ 32 }
    {
        if self.mark == u32::MAX {
            self.marks.fill(0);
            self.mark = 0;
        }
    }

    /// Whether a vertex is joined to the root.
    pub(crate) fn has(&self, v: Vertex) -> bool
        ensures { IsTrue result ↔ IsMarked self.now v.0 }
    {
        self.marks.get(v.0 as usize) == Some(&self.mark)
    }

    /// Takes a piece in, if the ground allows it and one of its ends is joined. Answers whether it was.
    pub(crate) fn add(&mut self, grid: &Grid, over: Ground, piece: Piece) -> Result<bool, NoMemory>
        requires size { self.old.size ≡ size_of grid.now }
        ensures size { self.new.size ≡ self.old.size }
        ensures grown { IfOk result (λ _. IsGrown grid.now over self.old → IsGrown grid.now over self.new) }
    {
        if !grid.allows(over, piece) {
            return Ok(false);
        }
        let (start, end) = self.size.ends_of(piece);
        if self.has(start) {
            self.join(piece, start, end)?;
            return Ok(true);
        }
        if self.has(end) {
            self.join(piece, end, start)?;
            return Ok(true);
        }
        Ok(false)
    }

    /// Takes in a piece from a vertex that is joined to another one.
    fn join(&mut self, piece: Piece, from: Vertex, to: Vertex) -> Result<(), NoMemory>
        requires from { IsMarked self.old from.0 }
        requires connects { Connects self.old.size piece from.0 to.0 }
        ensures size { self.new.size ≡ self.old.size }
        ensures grown { IfOk result (λ _. (g : Grid) (over : Ground) → self.old.size ≡ size_of g → Allows g over piece → IsGrown g over self.old → IsGrown g over self.new) }
    {
        self.pieces.push(piece)?;
        self.marks[to.0 as usize] = self.mark;
        Ok(())
    }

    /// The set, if it joins the terminals.
    pub(crate) fn tree(&self, terminals: &[Vertex]) -> Result<Option<Tree>, NoMemory>
        ensures keeps { (g : Grid) (over : Ground) → IsGrown g over self.now → IfOk result (λ found. IfSome found (λ tree. KeepsTo g over tree)) }
        ensures joins { (g : Grid) (over : Ground) → IsGrown g over self.now → IfOk result (λ found. IfSome found (λ tree. JoinsList (size_of g) tree terminals.now)) }
    {
        if !self.has_all(terminals) {
            return Ok(None);
        }
        let copied = self.pieces.as_slice().to_vec(self.allocator())?;
        Ok(Some(Tree::of(copied)))
    }

    /// Whether all terminals are joined.
    fn has_all(&self, terminals: &[Vertex]) -> bool
        ensures { IsTrue result ↔ All (λ t. IsMarked self.now t.0) terminals.now }
    {
        terminals.iter().all(|t| self.has(*t))
    }
}
