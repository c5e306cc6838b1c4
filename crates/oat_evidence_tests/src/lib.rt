//! Texts of images, cases, scripts and policies that are read or refused; maps, walks and policies of worked paths.
#![tactic(auto)]

#[cfg(test)]
mod cases;
#[cfg(test)]
mod faults;
#[cfg(test)]
mod files;
#[cfg(test)]
mod images;
#[cfg(test)]
mod maps;
#[cfg(test)]
mod owners;
#[cfg(test)]
mod policies;
#[cfg(test)]
mod scripts;
#[cfg(test)]
mod walks;
