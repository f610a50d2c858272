//! What the rules of the sharing bring about. Each function's contract is a law, and its body is empty.

ghost use Rattle.std.specs.Prelude.{ℕ};
ghost use Rattle.sharing61.specs.Agreement.{Agreement, HonestDealer};
ghost use Rattle.sharing61.specs.Translation.{OtherChoice};

/// Where at most the bound of receivers is down, the pairs of all honest receivers of an accepted instance lie on
/// one grid of at most this degree. A faulty dealer deals and reveals any pairs of polynomials of this degree, and a
/// receiver that is down sends, complains and votes as it likes.
#[tactic(auto, using(crate::proofs::Agree::agreement))]
pub fn accepted_instance_has_one_grid()
    ensures { (degree : ℕ) → Agreement degree }
{}

/// An honest dealer's instance is accepted and ends with the dealer's own grid, where at most the bound of receivers is
/// down. No honest receiver's pair is revealed in it, and every honest receiver votes yes.
pub fn honest_dealer_is_accepted()
    ensures { (degree : ℕ) → HonestDealer degree }
{}

/// To an honest dealer's grid a product is added, of a polynomial in x that is 1 at 0 and one in y, both 0 at the
/// receivers that are down, of whom there are at most the bound. Where the sum has at most this degree too, all that those
/// receivers and the public see stays as it was, and each honest receiver's share rises by the second polynomial's value.
pub fn other_choice_looks_the_same()
    ensures { (degree : ℕ) → OtherChoice degree }
{}
