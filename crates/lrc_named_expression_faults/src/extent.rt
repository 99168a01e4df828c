// What stands in the bodies of functions.

ghost use Rattle.std.specs.Prelude.{◌≡◌, ◌≤◌, ◌+◌, ◌||◌, List, Some, length, map, min, slice_get};
ghost use Rattle.lrc_named_tree.specs.Tree as tree;
ghost use Rattle.lrc_named_tree.specs.View.{expression_of, expressions_of};
ghost use Rattle.lrc_named_names.specs.Names.{function, meaning_of};
ghost use Rattle.lrc_named_names.specs.View.{declared_of};
ghost use Rattle.lrc_named_constants.specs.Constant.{names_of};
ghost use Rattle.lrc_named_constants.specs.View.{known_of};
ghost use Rattle.lrc_named_constants.specs.Well.{AreWell, IsWell, bytes_of};
ghost use Rattle.lrc_named_expression_faults.specs.Extent.{AreExtent, AreExtents, IsExtent, before};

use crate::scope::Scope;
use lrc_named_tree::tree::Expression;

/// What stands in an expression, and in the bodies of the functions that it calls, and so on.
#[derive(Clone, Copy)]
pub struct Extent {
    /// Whether `me`, `nodes` or a shared item does.
    pub varies: bool,
    /// How many operators and calls do, counted at each call; 257 stands for any more.
    pub weight: u32,
}

impl Extent {
    // Of an expression in which nothing stands that counts.
    fn nothing(varies: bool) -> Extent
        ensures varies { result.varies ≡ varies }
        ensures weight { result.weight ≡ 0 }
    {
        Extent { varies, weight: 0 }
    }

    // This and another one.
    fn and(self, other: Extent) -> Extent
        ensures varies { result.varies ≡ (self.varies || other.varies) }
        ensures weight { result.weight ≡ min (self.weight + other.weight) 257 }
    {
        Extent {
            varies: self.varies || other.varies,
            weight: self.weight.saturating_add(other.weight).min(257),
        }
    }

    // This, and an operator or a call.
    fn and_one(self) -> Extent
        ensures varies { result.varies ≡ self.varies }
        ensures weight { result.weight ≡ min (1 + self.weight) 257 }
    {
        Extent {
            varies: self.varies,
            weight: self.weight.saturating_add(1).min(257),
        }
    }
}

// The extent at a place, if there is one.
fn extent_at(extents: &[Extent], place: usize) -> Option<Extent>
    ensures { result ≡ slice_get extents.now place }
{
    extents.get(place).copied()
}

impl<'p> Scope<'_, '_, 'p> {
    /// Returns the extent of the body of the function of this name.
    pub fn body_extent(&self, name: &[u8]) -> Extent
        requires { AreExtents (declared_of self.now.names.now) self.now.extents.now }
        ensures { (parameters : List tree.Named) (body : tree.Expression)
            → meaning_of (declared_of self.now.names.now) name.now ≡ Some (function parameters body)
            → (result.weight ≤ 256) × IsExtent (before (declared_of self.now.names.now) name.now)
            (bytes_of parameters) body result }
    {
        match extent_at(self.extents, self.names.place(name)) {
            Some(extent) => extent,
            None => Extent::nothing(false),
        }
    }

    /// Returns the extent of an expression in which names are used as what they are.
    #[cycle(extent)]
    pub fn extent(&self, expression: &Expression<'p>) -> Extent
        requires extents { AreExtents (declared_of self.now.names.now) self.now.extents.now }
        requires well { IsWell (declared_of self.now.names.now) (names_of (map known_of self.now.known.now))
            (length (declared_of self.now.names.now)) (expression_of expression.now) }
        ensures { IsExtent (declared_of self.now.names.now) (names_of (map known_of self.now.known.now))
            (expression_of expression.now) result }
    {
        match expression {
            Expression::Number(_, _) => Extent::nothing(false),
            Expression::Me(_) => Extent::nothing(true),
            Expression::Nodes(_) => Extent::nothing(true),
            Expression::Element(name, indices, _) => {
                let own = Extent::nothing(self.sense(name.bytes).is_shared());
                let inside = self.extent_of_all(indices);
                own.and(inside)
            }
            Expression::Call(name, arguments, _) => {
                let inside = self.extent_of_all(arguments);
                let body = self.body_extent(name.bytes);
                inside.and(body).and_one()
            }
            Expression::Group(_, inside, _) => self.extent(inside),
            Expression::Not(_, operand) => self.extent(operand).and_one(),
            Expression::Binary(left, _, right) => {
                let one = self.extent(left);
                let other = self.extent(right);
                one.and(other).and_one()
            }
            Expression::And(left, right) => {
                let one = self.extent(left);
                let other = self.extent(right);
                one.and(other).and_one()
            }
            Expression::Or(left, right) => {
                let one = self.extent(left);
                let other = self.extent(right);
                one.and(other).and_one()
            }
        }
    }

    // The extent of these expressions.
    #[cycle(extent)]
    fn extent_of_all(&self, expressions: &[Expression<'p>]) -> Extent
        requires extents { AreExtents (declared_of self.now.names.now) self.now.extents.now }
        requires well { AreWell (declared_of self.now.names.now) (names_of (map known_of self.now.known.now))
            (length (declared_of self.now.names.now)) (expressions_of expressions.now) }
        ensures { AreExtent (declared_of self.now.names.now) (names_of (map known_of self.now.known.now))
            (expressions_of expressions.now) result }
    {
        let mut all = Extent::nothing(false);
        for i in (0..expressions.len()).rev() {
            let one = self.extent(&expressions[i]);
            all = one.and(all);
        }
        all
    }
}
