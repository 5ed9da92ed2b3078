//! Runs that the outside is against: reads and writes that fail, files that are cut, limits, and
//! workers that are held up.

mod cuts;
mod gates;
mod limits;
mod reads;
mod writes;
