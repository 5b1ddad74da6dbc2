/// One of the programs.
#[derive(Clone, Copy, Debug, PartialEq, Eq)]
pub enum Tool {
    Nfacctd,
    Sfacctd,
    Pmbgpd,
}
