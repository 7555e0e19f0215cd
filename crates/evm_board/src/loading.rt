ghost use Rattle.std.specs.Prelude.{◌≡◌, ◌%◌, length, false};
ghost use Rattle.std.specs.List.{list_any};
ghost use Rattle.evm_ram.specs.Images.{byte_at};
ghost use Rattle.evm_model.specs.Load.{load_board, bytes_from};
ghost use Rattle.evm_board.specs.Room.{passes_ram};

use crate::board::Board;
use crate::memory::Memory;
use evm_dev::Device;
use evm_ram::{BASE, Image, Segment};

// Whether a byte of a segment lies past RAM of this many bytes.
fn passes_ram(size: u64, segment: &Segment) -> bool
    ensures { result ≡ passes_ram size segment.now }
{
    let end = u128::from(segment.address()) + u128::from(segment.memsz());
    segment.memsz() != 0 && u128::from(BASE) + u128::from(size) < end
}

impl<D: Device> Memory<D> {
    /// RAM has an image's bytes, and zeros elsewhere.
    fn load(&mut self, image: &Image)
        requires { list_any (passes_ram (length self.old.ram)) image.now.segments ≡ false }
        ensures { self.new ≡ record self.old { ram = bytes_from (byte_at image.now) BASE (length self.old.ram) } }
    {
        self.clear();
        for segment in image.segments() {
            self.poke(segment.address(), segment.bytes());
        }
    }
}

impl<D: Device> Board<D> {
    /// Whether a byte of an image's segments lies past RAM.
    pub fn lacks_room(&self, image: &Image) -> bool
        ensures { result ≡ list_any (passes_ram (length self.now.memory.ram)) image.now.segments }
    {
        let size = self.memory.ram_size();
        image
            .segments()
            .iter()
            .any(|segment| passes_ram(size, segment))
    }

    /// RAM has an image's bytes, and zeros elsewhere, and task 0 begins at its entry.
    #[tactic(auto, unfolding(evm_model::specs::Load::load_board))]
    pub fn load(&mut self, image: &Image)
        requires { list_any (passes_ram (length self.old.memory.ram)) image.now.segments ≡ false }
        ensures loaded { self.new ≡ load_board (byte_at image.now) image.now.entry self.old }
        ensures aligned { image.now.entry % 4 ≡ 0 }
    {
        self.memory.load(image);
        self.parts.harts.set_pc(0, image.entry());
    }
}
