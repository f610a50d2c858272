//! Laws on other choices. Each function's contract is a law, and its body is empty.

ghost use Rattle.choices61.specs.Laws.{BackAgain, GridsKeepForm, OneView, ViewsAreThere, ViewsFitEveryDifference, ViewsFitEveryKey};
ghost use Rattle.choices61.specs.Phases.{CreateTranslates, MoveTranslates, RefreshTranslates};
ghost use Rattle.choices61.specs.Products.{ProductsLookSame};

/// A history has exactly one list of views.
pub fn a_history_has_one_list_of_views()
    ensures some { ViewsAreThere }
    ensures one { OneView }
{}

/// Where the product of a polynomial in x and one in y, both 0 at the receivers that are down, is added to grids of honest
/// dealers, all posts of the sharing stay, and all that those who are down get.
pub fn added_products_look_the_same()
    ensures { ProductsLookSame }
{}

/// The translation of a create: the views stay, and the shares rise by the difference times the polynomial that is 1 at 0
/// and 0 on the exposed.
pub fn translated_create_looks_the_same()
    ensures { CreateTranslates }
{}

/// The translation of a refresh, between shares that rise.
pub fn translated_refresh_looks_the_same()
    ensures { RefreshTranslates }
{}

/// The translation of a move, in which the honest dealers share shares that rise: the sixth round and the errors stay too.
pub fn translated_move_looks_the_same()
    ensures { MoveTranslates }
{}

/// The other choices of a history are a history, differ from it in grids alone, and have the same views; their key is the
/// first one's plus the difference. So the views of a history fit every key.
pub fn views_fit_every_key()
    ensures other { ViewsFitEveryDifference }
    ensures wished { ViewsFitEveryKey }
{}

/// With the difference back, the other choices of the other choices have the first grids again.
pub fn the_first_choices_come_again()
    ensures form { GridsKeepForm }
    ensures back { BackAgain }
{}
