mod joined;
mod rows;
mod sending;
