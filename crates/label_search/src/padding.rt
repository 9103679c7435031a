//! Lists that grow within their room.

ghost use Rattle.std.specs.Prelude.{◌≡◌, ◌<◌, length, vec_capacity};
ghost use Rattle.label_search.specs.Padding.{padded};

/// Takes the items up to an index into use, blank ones where the list was shorter.
pub(crate) fn pad_to<T: Copy>(items: &mut Vec<T>, index: usize, blank: T)
    requires room { index < vec_capacity items.old }
    ensures items { items.new.items ≡ padded items.old.items index blank }
    ensures capacity { vec_capacity items.new ≡ vec_capacity items.old }
{
    while items.len() <= index {
        items.push_reserved(blank);
    }
}
