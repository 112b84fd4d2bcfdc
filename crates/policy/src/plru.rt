// Tree-PLRU: for each hart a tree of fifteen bits, which a touch turns away from its way and a pick follows.
ghost use Rattle.std.specs.Prelude.{◌≡◌, ℕ, ◌<◌, true, false, replicate, is_err, Some, None};
ghost use Rattle.policy.specs.Answers.{touch_of, pick_of, last_after};
ghost use Rattle.policy.specs.Plru.{nodes_of, last_of, nodes_after, tree_of};
ghost use Rattle.policy.specs.Tree.{followed, touched};
ghost use Rattle.policy.specs.Trees.{followed_within};

use crate::tree::Tree;
use crate::{Policy, PolicyRefusal, accept};

/// Turns every bit on the path of a way away from it.
fn turn_away(nodes: &mut [bool; 16], way: usize)
    requires { way < 16 }
    ensures { nodes.new ≡ touched nodes.old way }
{
    for level in 0..4u32 {
        let node = (16 + way) >> level;
        nodes[node / 2] = node % 2 == 0;
    }
}

impl Tree {
    fn fresh() -> Tree
        ensures nodes { result.nodes ≡ replicate 16 false }
        ensures last { result.last ≡ None }
    {
        Tree {
            nodes: [false; 16],
            last: None,
        }
    }

    fn touch(&mut self, way: usize)
        requires { way < 16 }
        ensures nodes { self.new.nodes ≡ touched self.old.nodes way }
        ensures last { self.new.last ≡ Some way }
    {
        turn_away(&mut self.nodes, way);
        self.last = Some(way);
    }

    /// The way that the bits lead to from the root.
    fn follow(&self) -> usize
        ensures value { result ≡ followed self.now.nodes }
        ensures bound { result < 16 }
    {
        let mut node = 1;
        for _level in 0..4u32 {
            node = 2 * node + usize::from(self.nodes[node]);
        }
        node - 16
    }
}

// Beside `Clock`, and no generic over what a hart keeps: the clauses name what becomes of marks, hands and nodes.
#[derive(Clone, Copy)]
pub struct TreePlru {
    trees: [Tree; 8],
}

impl TreePlru {
    /// All bits clear, no way touched.
    pub fn new() -> TreePlru
        ensures nodes { (h : ℕ) → h < 8 → nodes_of result h ≡ replicate 16 false }
        ensures last { (h : ℕ) → h < 8 → last_of result h ≡ None }
    {
        TreePlru {
            trees: [Tree::fresh(); 8],
        }
    }
}

impl Policy for TreePlru {
    ghost last = { λ p h. last_of p h };

    ghost choice = { λ p h. followed (nodes_of p h) };

    ghost within = { λ p hart h. followed_within (nodes_of p hart) };

    ghost apart = { λ p hart h. (tree_of p hart).apart };

    fn touch(&mut self, hart: usize, way: usize) -> Result<(), PolicyRefusal>
        ensures answer { result ≡ touch_of hart way }
        ensures last { (h : ℕ) → h < 8 → last_of self.new h ≡ last_after (last_of self.old) hart way h }
        ensures refused { is_err result ≡ true → self.new ≡ self.old }
        ensures nodes { (h : ℕ) → h < 8 → nodes_of self.new h ≡ nodes_after (nodes_of self.old) hart way h }
    {
        accept(hart, way)?;
        self.trees[hart].touch(way);
        Ok(())
    }

    fn pick(&mut self, hart: usize) -> Result<usize, PolicyRefusal>
        ensures answer { result ≡ pick_of (followed (nodes_of self.old hart)) hart }
        ensures last { (h : ℕ) → h < 8 → last_of self.new h ≡ last_of self.old h }
        ensures refused { is_err result ≡ true → self.new ≡ self.old }
        ensures same { self.new ≡ self.old }
    {
        let tree = self.trees.get(hart).ok_or(PolicyRefusal::NoHart)?;
        Ok(tree.follow())
    }
}
