//! Objects by their ids.

ghost use Rattle.std.specs.Prelude.{◌≡◌, ◌<◌, true, length, drop, bytes_eq, IfSome};
ghost use Rattle.imkl_population.specs.Population.{object_at, object_number, object_number_in};

use imkl_population::{ObjectNo, Population};

/// The object of an id, if it is there from one object on.
fn object_from(population: &Population<'_>, first: usize, id: &[u8]) -> Option<ObjectNo>
    ensures number { result ≡ object_number_in first
        (drop first population.now.content.objects) id.now }
    ensures there { IfSome result (λ o. o < length population.now.content.objects) }
    ensures named { IfSome result (λ o.
        bytes_eq id.now (object_at population.now.content o).id ≡ true) }
{
    population.consistent();
    for index in first..population.objects() {
        let object = ObjectNo::new(index);
        if id == population.id(object).as_bytes() {
            return Some(object);
        }
    }
    None
}

/// The object of an id. It is looked for from one object on, and then from the first.
pub fn object_named(population: &Population<'_>, first: usize, id: &[u8]) -> Option<ObjectNo>
    ensures number { result ≡ object_number population.now.content id.now }
    ensures there { IfSome result (λ o. o < length population.now.content.objects) }
{
    population.consistent();
    match object_from(population, first, id) {
        Some(object) => Some(object),
        None => object_from(population, 0, id),
    }
}
