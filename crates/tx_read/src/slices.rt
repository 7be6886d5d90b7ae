//! Fronts and ends of slices.
ghost use Rattle.std.specs.Prelude.{◌≡◌, take, drop};

/// The first items, so many or all.
pub fn front<T>(items: &[T], count: usize) -> &[T]
    ensures { result.now ≡ take count items.now }
{
    if count < items.len() {
        let (front, _) = items.split_at(count);
        front
    } else {
        items
    }
}

/// What stands after so many items; nothing where there are no more.
pub fn behind<T>(items: &[T], count: usize) -> &[T]
    ensures { result.now ≡ drop count items.now }
{
    if count < items.len() {
        let (_, rest) = items.split_at(count);
        rest
    } else {
        &[]
    }
}
