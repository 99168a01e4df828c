// Laws of circles of waiting. These functions do nothing: each contract states a law.

ghost use Rattle.std.specs.Prelude.{◌≡◌, ◌∷◌, ◌↔◌, ℕ, List, Option, Some};
ghost use Rattle.lrc_explain_waits.specs.Circle.{IsCircle, IsCircleFromLowest, IsToldFromLowest};
ghost use Rattle.lrc_explain_waits.specs.Circles.{circle_of};

/// The circles told are exactly the circles of waiting. What is told from a node is a circle whose lowest node it is;
/// each such circle is told; and a circle that is begun at another of its nodes is told from its lowest node.
pub fn the_circles_told_are_those_of_waiting()
    ensures exact { (waits : List (Option ℕ)) (node : ℕ) (others : List ℕ)
        → (circle_of waits node ≡ Some others) ↔ IsCircleFromLowest waits node others }
    ensures whole { (waits : List (Option ℕ)) (node : ℕ) (others : List ℕ)
        → IsCircle waits node others → IsToldFromLowest waits (node ∷ others) }
{}
