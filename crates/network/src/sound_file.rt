// A network file that was judged and is sound, with the size of its network.
ghost use Rattle.std.specs.Prelude.{◌≡◌, Ok};
ghost use Rattle.network.specs.Network.{of_file};
ghost use Rattle.network.specs.Answers.{network_found};

use crate::Size;

#[derive(Clone, Copy)]
pub struct SoundFile<'a> {
    pub net: &'a [u8],
    pub size: Size,
    // The file is sound, and its network of this size.
    pub ghost sound: { network_found (of_file net.now) ≡ Ok size },
}
