use evm_model::Refusal;

/// Why a view could not be made.
#[derive(Debug, Drop)]
pub enum ViewRefusal {
    Refused(Refusal),
    NoMemory,
}
