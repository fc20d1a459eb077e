//! What holds of orders over their definitions alone.

ghost use Rattle.std.specs.Prelude.{◌≡◌, List, Ok};
ghost use Rattle.mx_words.specs.Orders.{order_of};
ghost use Rattle.mx_words.specs.Usage.{Orders};
ghost use Rattle.mx_words.specs.Values.{Word};
ghost use Rattle.mx_words.specs.declared.order.Order.{Order};

/// The words that are read as an order are those of the grammar of orders.
pub fn orders_are_those_of_the_grammar()
    ensures complete { (words : List Word) (o : Order) → Orders words o → order_of words ≡ Ok o }
    ensures sound { (words : List Word) (o : Order) → order_of words ≡ Ok o → Orders words o }
{}
