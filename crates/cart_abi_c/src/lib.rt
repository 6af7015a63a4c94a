// The exports that a C program links: one archive has the exports of one crate. Each calls the function of its name in
// `cart_abi` and has its contract.

#![tactic(auto)]

mod images;
mod matchers;
mod records;
mod version;
