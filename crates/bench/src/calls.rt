use base::RegistrationNumber;
use history::Call;
use kinds::row::ROW;
use rig::Fuse;

// Calls as the tasks write them.

pub fn list(places: usize) -> Call {
    Call::Search { places }
}

pub fn read(number: RegistrationNumber, row: u16) -> Call {
    Call::Read { number, row }
}

pub fn order(number: RegistrationNumber, row: u16, new: [u8; ROW]) -> Call {
    Call::Order { number, row, new }
}

pub fn fuse(count: u32, mask: u64) -> Call {
    Call::SetFuse(Fuse { count, mask })
}
