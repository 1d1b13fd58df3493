// Filling the first places of a list.
ghost use Rattle.std.specs.Prelude.{ℕ, ◌≤◌, ◌<◌, length};
ghost use Rattle.book.specs.Filling.{IsFilled};

// Each of the first places gets what is made for its number, and the others stay as they were. In place: an array that
// `from_fn` makes is moved once more. A number is below 256, so that it fits 16 bits.
pub fn fill_first<T: Copy, F: Fn(u16) -> T>(list: &mut [T], count: usize, make: F)
    requires capacity { count ≤ length list.old }
    requires numbers { count ≤ 256 }
    requires made { (i : ℕ) → i < count → F.pre make i }
    ensures { IsFilled (F.post make) count list.old list.new }
{
    for (i, place) in list[..count].iter_mut().enumerate() {
        *place = make(i as u16);
    }
}
